//! Laws of Argon2: each is the contract of a function without parameters, and calling it does nothing.

ghost use Rattle.std.specs.Prelude.{◌≡◌, ℕ, ◌-◌, ◌*◌, ◌<◌, List, length};
ghost use Rattle.argon2_base.specs.Block.{bytes_of, mixed, zero_block};
ghost use Rattle.argon2_base.specs.LongHash.{long_hash};
ghost use Rattle.argon2.specs.Laws.{AreAlike, AreSchedules, Begins, IsRecurrence};
ghost use Rattle.argon2.specs.Rfc9106.{Blocks, Context, FirstColumns, IsValid, block_count, block_of, first_block, lane_length, segment_length, tag_of};
ghost use Rattle.argon2.specs.Argon2.{context_with};
ghost use Rattle.argon2.specs.Layout.{Memory, matrix, reference_places};
ghost use Rattle.argon2.specs.Segments.{IsFilledBySegments, last_of_slice, slices_after};
ghost use Rattle.argon2.specs.Settings.{SettingsValue};
ghost use Rattle.argon2.specs.Steps.{IsSchedule, last_column, run, run_passes};

/// The mixing of two blocks (RFC 9106, section 3.5) is the same in either order.
pub fn mixing_symmetric()
    ensures { (x y : List ℕ) → mixed x y ≡ mixed y x }
{}

/// The mixing of a block with itself is the block of zeros.
pub fn mixing_with_itself()
    ensures { (x : List ℕ) → length x ≡ 128 → mixed x x ≡ zero_block }
{}

/// The key identifier of the parameters changes no hash.
pub fn key_identifier()
    ensures { (settings : SettingsValue) (secret keyid : List ℕ) →
        let parameters = record settings.parameters { keyid = keyid } in
        let own = record settings { parameters = parameters } in
        context_with own secret ≡ context_with settings secret }
{}

/// The blocks are made of each other as RFC 9106, section 3 says, and no other blocks are.
pub fn recurrence()
    ensures follow { (context : Context) → IsValid context → (first : FirstColumns)
        → IsRecurrence context first (block_of context first) }
    ensures alone { (context : Context) → IsValid context → (first : FirstColumns) (blocks : Blocks)
        → IsRecurrence context first blocks → (pass lane column : ℕ)
        → lane < context.p_cost → column < lane_length context
        → blocks pass lane column ≡ block_of context first pass lane column }
{}

/// The lanes of a slice may take their turns in any order: the blocks are the same. In the end they
/// are the matrix and give the tag.
pub fn slice_interleaving()
    ensures agree { (context : Context) → IsValid context
        → (memory : Memory) → length memory ≡ block_count context
        → (pass slice : ℕ) → pass < context.t_cost → slice < 4
        → (one other : List ℕ) → IsSchedule context pass slice one → IsSchedule context pass slice other
        → run context pass slice one memory ≡ run context pass slice other memory }
    ensures fill { (context : Context) → IsValid context
        → (first : FirstColumns) (memory : Memory) → Begins context first memory
        → (schedules : ℕ → ℕ → List ℕ) → AreSchedules context schedules
        → run_passes context schedules context.t_cost memory ≡ matrix context first }
    ensures tag { (context : Context) → IsValid context → (password salt : List ℕ) (n : ℕ)
        → (memory : Memory) → Begins context (first_block context password salt n) memory
        → (schedules : ℕ → ℕ → List ℕ) → AreSchedules context schedules
        → long_hash n (bytes_of (last_column context (run_passes context schedules context.t_cost memory)))
        ≡ tag_of context password salt n }
{}

/// A memory is laid out slice by slice. Its first slice is begun, and each segment is filled once on the
/// parts of that memory, slice by slice and pass by pass, the lanes of a slice in any order. Then the
/// last column gives the tag.
pub fn segments_apart()
    ensures { (context : Context) (password salt : List ℕ) (n : ℕ) (memory : ℕ → ℕ → Memory)
        → IsFilledBySegments context (first_block context password salt n) memory
        → long_hash n (bytes_of (last_of_slice context (slices_after context 2 (memory (context.t_cost - 1) 4))))
        ≡ tag_of context password salt n }
{}

/// If references do not depend on the blocks, they depend only on the algorithm and the costs.
pub fn independent_positions()
    ensures argon2i { (one other : Context) → IsValid one → AreAlike one other → one.algorithm ≡ 1
        → (first second : FirstColumns) (pass lane column : ℕ)
        → reference_places one first pass lane column ≡ reference_places other second pass lane column }
    ensures argon2id { (one other : Context) → IsValid one → AreAlike one other → one.algorithm ≡ 2
        → (first second : FirstColumns) (lane column : ℕ) → column < 2 * segment_length one
        → reference_places one first 0 lane column ≡ reference_places other second 0 lane column }
{}
