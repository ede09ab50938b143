// The scripts of a case.
ghost use Rattle.std.specs.Prelude.{◌<◌};

use gm_base::{NoMemory, Text};
use std::alloc::Global;
use std::mem;

/// A script, and the words after the program's name.
#[derive(Debug, Drop)]
pub(crate) struct Script {
    pub(crate) words: Vec<Text>,
    pub(crate) bytes: Vec<u8>,
}

impl Script {
    // No bytes yet, with the words of a header.
    fn new(alloc: Global, header: &str) -> Result<Script, NoMemory> {
        let mut words = Vec::new(alloc);
        for part in header.split_whitespace() {
            if let Some(word) = part.strip_prefix("word=") {
                words.push(Text::from_str(alloc, word)?)?;
            }
        }
        Ok(Script {
            words,
            bytes: Vec::new(alloc),
        })
    }
}

/// The scripts of a case, in order; each is run over the store that the one before left.
#[derive(Debug, Drop)]
pub(crate) struct Scripts {
    ended: Vec<Script>,
    open: Script,
}

impl Scripts {
    /// An empty script with the words of a case's name: `word=WORD` for each.
    pub(crate) fn new(alloc: Global, header: &str) -> Result<Scripts, NoMemory> {
        Ok(Scripts {
            ended: Vec::new(alloc),
            open: Script::new(alloc, header)?,
        })
    }

    /// Adds a line. `--- again` begins a further script, with words as behind a case's name; `@last
    /// TEXT` is a text without a line's end, `@repeat N TEXT` such a text N times, and `@bytes HEX`
    /// are bytes.
    pub(crate) fn add(&mut self, alloc: Global, line: &str) -> Result<(), NoMemory> {
        if let Some(header) = line.strip_prefix("--- again") {
            let script = mem::replace(&mut self.open, Script::new(alloc, header)?);
            self.ended.push(script)?;
            return Ok(());
        }
        let bytes = &mut self.open.bytes;
        if let Some(text) = line.strip_prefix("@last ") {
            return append(bytes, text);
        }
        if let Some(digits) = line.strip_prefix("@bytes ") {
            return append_bytes(bytes, digits.as_bytes());
        }
        if let Some(rest) = line.strip_prefix("@repeat ") {
            return append_repeated(bytes, rest);
        }
        append(bytes, line)?;
        append(bytes, "\n")
    }

    /// All scripts.
    pub(crate) fn into_list(self) -> Result<Vec<Script>, NoMemory> {
        let Scripts { mut ended, open } = self;
        ended.push(open)?;
        Ok(ended)
    }
}

fn append(script: &mut Vec<u8>, text: &str) -> Result<(), NoMemory> {
    script.extend_from_slice(text.as_bytes())?;
    Ok(())
}

// The bytes that pairs of hexadecimal digits are.
fn append_bytes(script: &mut Vec<u8>, digits: &[u8]) -> Result<(), NoMemory> {
    for pair in digits.chunks(2) {
        if let [high, low] = pair {
            script.push(digit(*high) * 16 + digit(*low))?;
        }
    }
    Ok(())
}

fn digit(byte: u8) -> u8
    ensures { result < 16 }
{
    match byte {
        b'0'..=b'9' => byte - b'0',
        b'a'..=b'f' => byte - b'a' + 10,
        _ => 0,
    }
}

// A text so many times, as `3 ab` is `ababab`.
fn append_repeated(script: &mut Vec<u8>, rest: &str) -> Result<(), NoMemory> {
    let Some((digits, text)) = rest.split_once(' ') else {
        return Ok(());
    };
    let count = digits.parse::<u32>().unwrap_or(0);
    for _ in 0..count {
        append(script, text)?;
    }
    Ok(())
}
