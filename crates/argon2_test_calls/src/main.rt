//! Makes the calls that the lines of standard input name, and compares the answers with those that the lines have. So a test is
//! a line of `stdin`: `CALL = ANSWER`.
//!
//! - Empty lines and lines that begin with `#` have no call.
//! - A call is its name and its values, each after one space. Its answer is a value, `Ok`, or an error by its name. The module
//!   that makes a call says which values it takes.
//! - A call is printed with the answer that was found if the line has another answer or none. Last come the numbers of right and
//!   of wrong answers, unless no line has an answer.
//! - A line that is no call, or has other values, is answered by `?`. If memory is refused to the program, and not to the
//!   call, the answer is `no memory`, or the program ends.
#![tactic(auto)]

use answer::Answer;
use argon2::login::Login;
use argon2::{Argon2, Block};
use argon2_accounts::Accounts;
use call::Call;
use context::Contexts;
use files::{Disks, OnDisk};
use line::Line;
use std::io::{self, BufWriter, Read, Write};

mod answer;
mod blocks;
mod call;
mod context;
mod drawn;
mod files;
mod hashing;
mod line;
mod plain;
mod texts;
mod types;
mod uses;

fn main(rt: HostRuntime) -> io::Result<()> {
    let alloc = rt.alloc();
    let mut text = String::new(alloc);
    rt.reader().read_to_string(&mut text)?;
    let lines = line::lines_of(alloc, text.as_str())?;
    let mut output = BufWriter::new(alloc, rt.stdout())?;
    write_all::<OnDisk, _>(&rt, &mut output, &lines)
}

// What calls leave for those after them: the memory that is lent, the last login store, and accounts in an open file.
#[derive(Drop)]
struct Left<'a, S: Disks> {
    memory: Vec<Block>,
    login: Option<Login<'a>>,
    accounts: Option<Accounts<'a, S>>,
}

fn write_all<'a, S: Disks, W: Write>(
    rt: &HostRuntime,
    output: &mut W,
    lines: &'a [Line<'a>],
) -> io::Result<()> {
    let alloc = rt.alloc();
    let (mut contexts, answer) = (Contexts::new(alloc), Answer::new(alloc));
    contexts.add(lines)?;
    let mut left: Left<'a, S> = Left {
        memory: Vec::new(alloc),
        login: None,
        accounts: None,
    };
    for line in lines {
        let call = Call::new(line, &contexts);
        if !make(rt, &call, &answer, &mut left) {
            call.refuse();
        }
        answer.write(&call, output)?;
    }
    answer.write_counts(output)?;
    output.flush()
}

// Makes a call. Returns whether there is a call of its name.
fn make<'a, S: Disks>(
    rt: &HostRuntime,
    call: &Call<'_, 'a>,
    answer: &Answer,
    left: &mut Left<'a, S>,
) -> bool {
    blocks::make(call, answer)
        || hashing::make(call, answer, &mut left.memory)
        || texts::make(call, answer)
        || types::make(call, answer)
        || uses::make(call, answer, &mut left.login)
        || files::make(rt, call, answer, &mut left.accounts)
}

// The context of a value, for a call that takes it.
fn own_context<'a>(call: &Call<'_, 'a>, place: usize) -> Argon2<'a> {
    call.context(place).clone().unwrap_or_default()
}

// The context, the password and the salt of a call whose first values they are.
fn inputs<'c, 'a>(call: &Call<'c, 'a>) -> (&'c Argon2<'a>, &'a [u8], &'a [u8]) {
    (call.context(1), call.bytes(2), call.bytes(3))
}
