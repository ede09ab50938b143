// What is written for a line.
ghost use Rattle.std.specs.Prelude.{◌≡◌, ◌++◌, codes, IfOk, OnOk};
ghost use Rattle.std.specs.List.{flat_map};
ghost use Rattle.std.specs.String.{string_bytes};
ghost use Rattle.gm_script.specs.Reply as spec;

use crate::numbers::append_number;
use gm_base::{Bytes, Code, FeatureId, NoMemory, Text};
use gm_filter::TextList;
use std::alloc::Global;

/// Room for a reply of one line that names a type or a feature, in bytes.
const SHORT_ROOM: usize = 160;

/// The answer to a line. The texts of a list are the lines behind the first, without their ends.
#[derive(Debug, Drop)]
pub enum Reply {
    Created(Text),
    Stored {
        id: FeatureId,
        replaced: bool,
    },
    Deleted(FeatureId),
    Removed(u64),
    Modified(u64),
    /// The rows of the features that match, each with its line end, and how many they are.
    Found {
        rows: Text,
        matched: u64,
        examined: u64,
    },
    Counted {
        matched: u64,
        examined: u64,
    },
    Explained(TextList),
    Described(TextList),
    Refusal {
        code: Code,
        row: Option<u32>,
    },
}

/// The bytes of a reply, each line with its end.
#[tactic(auto, unfolding(crate::specs::Reply::reply_bytes))]
pub fn print_reply(alloc: Global, reply: &Reply) -> Result<Bytes, NoMemory>
    ensures { IfOk result (λ bytes. bytes ≡ spec.reply_bytes reply.now) }
{
    let mut text = String::with_capacity(alloc, room_of(reply))?;
    append_reply(&mut text, reply)?;
    Ok(Bytes::from_vec(text.into_bytes()))
}

// About how many bytes a reply takes.
fn room_of(reply: &Reply) -> usize {
    match reply {
        Reply::Found { rows, .. } => rows.as_bytes().len().saturating_add(SHORT_ROOM),
        Reply::Explained(lines) => lines_room(lines.as_slice()),
        Reply::Described(lines) => lines_room(lines.as_slice()),
        _ => SHORT_ROOM,
    }
}

fn lines_room(lines: &[Text]) -> usize {
    let mut room = SHORT_ROOM;
    for line in lines {
        room = room.saturating_add(line.as_bytes().len()).saturating_add(1);
    }
    room
}

#[tactic(auto, unfolding(crate::specs::Reply::reply_bytes))]
fn append_reply(text: &mut String, reply: &Reply) -> Result<(), NoMemory>
    ensures { OnOk result (string_bytes text.new
        ≡ string_bytes text.old ++ spec.reply_bytes reply.now) }
{
    match reply {
        Reply::Created(name) => append_line(text, "ok create ", name.as_str()),
        Reply::Stored { id, replaced } => append_stored(text, id, *replaced),
        Reply::Deleted(id) => append_line(text, "ok delete ", id.as_str()),
        Reply::Removed(count) => append_count(text, "ok remove ", *count),
        Reply::Modified(count) => append_count(text, "ok modify ", *count),
        Reply::Found {
            rows,
            matched,
            examined,
        } => append_found(text, rows, *matched, *examined),
        Reply::Counted { matched, examined } => {
            append_matched(text, "ok count ", *matched, *examined)
        }
        Reply::Explained(lines) => append_listed(text, "ok explain ", lines.as_slice()),
        Reply::Described(lines) => append_listed(text, "ok describe ", lines.as_slice()),
        Reply::Refusal { code, row } => append_refusal(text, code, *row),
    }
}

// A word, the rest of the line, and its end.
fn append_line(text: &mut String, word: &str, rest: &str) -> Result<(), NoMemory>
    ensures { OnOk result (string_bytes text.new
        ≡ string_bytes text.old ++ spec.line_of (word.now ++ rest.now)) }
{
    text.push_str(word)?;
    text.push_str(rest)?;
    text.push_str("\n")?;
    Ok(())
}

fn stored_word(replaced: bool) -> &'static str
    ensures { result.now ≡ spec.stored_word replaced }
{
    if replaced { " replaced" } else { " new" }
}

fn append_stored(text: &mut String, id: &FeatureId, replaced: bool) -> Result<(), NoMemory>
    ensures { OnOk result (string_bytes text.new
        ≡ string_bytes text.old
        ++ spec.line_of (codes "ok put " ++ (id.now ++ spec.stored_word replaced))) }
{
    text.push_str("ok put ")?;
    append_line(text, id.as_str(), stored_word(replaced))
}

fn append_count(text: &mut String, word: &str, count: u64) -> Result<(), NoMemory>
    ensures { OnOk result (string_bytes text.new
        ≡ string_bytes text.old ++ spec.counted_bytes word.now count) }
{
    text.push_str(word)?;
    append_number(text, count)?;
    text.push_str("\n")?;
    Ok(())
}

fn append_matched(
    text: &mut String,
    word: &str,
    matched: u64,
    examined: u64,
) -> Result<(), NoMemory>
    ensures { OnOk result (string_bytes text.new
        ≡ string_bytes text.old ++ spec.matched_bytes word.now matched examined) }
{
    text.push_str(word)?;
    append_number(text, matched)?;
    text.push_str(" of ")?;
    append_number(text, examined)?;
    text.push_str("\n")?;
    Ok(())
}

fn append_found(text: &mut String, rows: &Text, matched: u64, examined: u64) -> Result<(), NoMemory>
    ensures { OnOk result (string_bytes text.new
        ≡ string_bytes text.old ++ spec.found_bytes rows.now matched examined) }
{
    append_matched(text, "ok query ", matched, examined)?;
    text.push_str(rows.as_str())?;
    Ok(())
}

fn append_lines(text: &mut String, lines: &[Text]) -> Result<(), NoMemory>
    ensures { OnOk result (string_bytes text.new
        ≡ string_bytes text.old ++ flat_map spec.line_of lines.now) }
{
    'lines: for line in lines {
        text.push_str(line.as_str())?;
        text.push_str("\n")?;
    }
    Ok(())
}

fn append_listed(text: &mut String, word: &str, lines: &[Text]) -> Result<(), NoMemory>
    ensures { OnOk result (string_bytes text.new
        ≡ string_bytes text.old ++ spec.listed_bytes word.now lines.now) }
{
    append_count(text, word, lines.len() as u64)?;
    append_lines(text, lines)
}

fn append_row_number(text: &mut String, row: Option<u32>) -> Result<(), NoMemory>
    ensures { OnOk result (string_bytes text.new ≡ string_bytes text.old ++ spec.row_number row) }
{
    if let Some(row) = row {
        text.push_str(" row ")?;
        append_number(text, u64::from(row))?;
    }
    Ok(())
}

fn append_refusal(text: &mut String, code: &Code, row: Option<u32>) -> Result<(), NoMemory>
    ensures { OnOk result (string_bytes text.new
        ≡ string_bytes text.old ++ spec.refusal_bytes code.now row) }
{
    text.push_str("error ")?;
    text.push_str(code.name())?;
    text.push_str(" ")?;
    text.push_str(code.phrase())?;
    append_row_number(text, row)?;
    text.push_str("\n")?;
    Ok(())
}
