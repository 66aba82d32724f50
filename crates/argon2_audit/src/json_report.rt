//! The report as a JSON object.

ghost use Rattle.std.specs.Prelude.{IfOk, OnOk, IsTrue};
ghost use Rattle.json.specs.Json.{Items, Json, array, object};
ghost use Rattle.json.specs.Tree.{members_tokens};
ghost use Rattle.argon2_audit.specs.Object.{Adds, AddsValue, HasFindings, IsFlat, counts_of, members_now, json_value};

use crate::finding::Class;
use crate::kind::Kind;
use crate::report::{Location, Remark, Remarks};
use crate::session::Session;
use crate::tally::Tally;
use argon2_io::Failure;
use json::Writer;
use std::alloc::{AllocError, Global};
use std::collections::BTreeMap;

/// The value of a member that is no array or object.
#[derive(Clone, Copy)]
pub enum Value<'a> {
    Number(u64),
    Text(&'a str),
}

/// The beginning of a JSON object, with the findings so far. It is kept in memory until the object is whole.
#[derive(Drop)]
pub struct JsonReport {
    alloc: Global,
    json: Writer,
    // Whether no write failed.
    is_whole: bool,
    ghost whole: { IsTrue is_whole → ∥ HasFindings json ∥₁ },
}

impl JsonReport {
    ghost use Rattle.argon2_audit.specs.Object.{IsObject};

    /// A report with no findings.
    ///
    /// # Errors
    /// Out of memory.
    pub fn new(alloc: Global) -> Result<JsonReport, AllocError> {
        let mut json = Writer::new(Vec::new(alloc));
        json.begin_object()?;
        json.key("findings")?;
        json.begin_array()?;
        Ok(JsonReport {
            alloc,
            json,
            is_whole: true,
        })
    }

    /// The whole object.
    ///
    /// # Errors
    /// Out of memory, in this call or in an earlier one.
    pub fn object(self, session: &Session) -> Result<Vec<u8>, AllocError>
        ensures { IfOk result (λ text. IsObject session.now.tally text.items) }
    {
        if !self.is_whole {
            return Err(AllocError);
        }
        let mut schemes = Vec::new(self.alloc);
        for (scheme, lines) in session.seen.schemes.iter() {
            schemes.push((scheme.name(), Value::Number(*lines)))?;
        }
        let mut json = self.json;
        json.end_array()?;
        json.key("counts")?;
        write_counts(&mut json, &session.tally)?;
        json.key("schemes")?;
        write_object(&mut json, schemes.as_slice())?;
        json.key("table")?;
        write_kinds(&mut json, &session.seen.kinds)?;
        json.end_object()?;
        Ok(json.into_inner())
    }
}

impl Remarks for JsonReport {
    // If a write fails, the object is never whole.
    fn add(&mut self, location: Location<'_>, remark: Remark<'_>) -> Result<(), Failure> {
        let text = format!(in self.alloc; "{remark}")?;
        let was_whole = self.is_whole;
        self.is_whole = false;
        write_finding(&mut self.json, location, remark.code(), text.as_str())?;
        self.is_whole = was_whole;
        Ok(())
    }
}

// Writes a finding.
fn write_finding<'a>(
    json: &mut Writer,
    location: Location<'a>,
    code: &'a str,
    remark: &'a str,
) -> Result<(), AllocError>
    ensures { OnOk result ((finding : Json) × AddsValue json.old json.new 1 finding) }
{
    let line = ("line", Value::Number(location.line));
    let (code, remark) = (("code", Value::Text(code)), ("remark", Value::Text(remark)));
    match location.file {
        Some(file) => write_object(json, &[("file", Value::Text(file)), line, code, remark]),
        None => write_object(json, &[line, code, remark]),
    }
}

// Writes the counts.
fn write_counts(json: &mut Writer, tally: &Tally) -> Result<(), AllocError>
    ensures { OnOk result (AddsValue json.old json.new 1 (counts_of tally.now)) }
{
    let counts = [
        ("lines", Value::Number(tally.lines)),
        ("sound", Value::Number(tally.count(Class::Sound))),
        ("below", Value::Number(tally.count(Class::Below))),
        ("no_hash", Value::Number(tally.count(Class::NoHash))),
        ("outside", Value::Number(tally.count(Class::Outside))),
        ("locked", Value::Number(tally.count(Class::Locked))),
        ("empty", Value::Number(tally.count(Class::Empty))),
        ("blank", Value::Number(tally.count(Class::Blank))),
        ("comments", Value::Number(tally.count(Class::Comment))),
        ("unknown", Value::Number(tally.count(Class::Unknown))),
        ("other", Value::Number(tally.count(Class::Other))),
        ("short_salts", Value::Number(tally.short_salts)),
        ("equal_salts", Value::Number(tally.equal_salts)),
        ("other_keys", Value::Number(tally.other_keys)),
    ];
    write_object(json, &counts)
}

// Writes how many texts of Argon2 there are of each kind.
fn write_kinds(json: &mut Writer, kinds: &BTreeMap<Kind, u64>) -> Result<(), AllocError>
    ensures { OnOk result ((items : Items) × AddsValue json.old json.new 2 (array items)) }
{
    json.begin_array()?;
    for (kind, lines) in kinds.iter() {
        let members = [
            ("algorithm", Value::Text(kind.algorithm.as_str())),
            ("version", Value::Number(u64::from(u32::from(kind.version)))),
            ("m", Value::Number(u64::from(kind.m_cost))),
            ("t", Value::Number(u64::from(kind.t_cost))),
            ("p", Value::Number(u64::from(kind.p_cost))),
            ("lines", Value::Number(*lines)),
        ];
        write_object(json, &members)?;
    }
    json.end_array()
}

// Writes an object.
fn write_object(json: &mut Writer, members: &[(&str, Value<'_>)]) -> Result<(), AllocError>
    ensures { OnOk result (AddsValue json.old json.new 1 (object (members_now members.now))) }
{
    json.begin_object()?;
    write_members(json, members)
}

// Writes the last members of an object.
fn write_members(json: &mut Writer, members: &[(&str, Value<'_>)]) -> Result<(), AllocError>
    ensures { OnOk result (Adds json.old json.new (members_tokens (members_now members.now))
        × IsFlat 1 (object (members_now members.now))) }
{
    let Some((member, rest)) = members.split_first() else {
        return json.end_object();
    };
    json.key(member.0)?;
    write_value(json, member.1)?;
    write_members(json, rest)
}

// Writes a value.
fn write_value(json: &mut Writer, value: Value<'_>) -> Result<(), AllocError>
    ensures { OnOk result (AddsValue json.old json.new 0 (json_value value.entry)) }
{
    match value {
        Value::Number(number) => json.u64(number),
        Value::Text(text) => json.string(text),
    }
}
