// How a case is run.

/// Which calls fail one after the other, in a run each.
#[derive(Clone, Copy, Debug, PartialEq, Eq)]
pub(crate) enum Failing {
    Nothing,

    /// The read with this number, from 0.
    Read(u64),

    /// The write or flush with this number, from 0.
    Write(u64),

    EachRead,
    EachWrite,
}

/// What stands behind a case's name: `piece=N`, the greatest piece of the source and the sink;
/// `read=N` or `write=N`, the call that fails, or `each_read` or `each_write`, where one after the
/// other fails until none does; `steady`, for a source and a sink that never fail.
#[derive(Clone, Copy, Debug)]
pub(crate) struct Plan {
    pub(crate) piece: usize,
    pub(crate) failing: Failing,
    pub(crate) is_steady: bool,
}

impl Plan {
    pub(crate) fn of(header: &str) -> Plan {
        let mut plan = Plan {
            piece: 1 << 16,
            failing: Failing::Nothing,
            is_steady: false,
        };
        for word in header.split_whitespace() {
            plan = plan.with(word);
        }
        plan
    }

    // The plan as a further word has it.
    fn with(self, word: &str) -> Plan {
        if let Some(piece) = number_behind("piece=", word) {
            return Plan {
                piece: piece as usize,
                failing: self.failing,
                is_steady: self.is_steady,
            };
        }
        let failing = match (number_behind("read=", word), number_behind("write=", word)) {
            (Some(call), _) => Failing::Read(call),
            (None, Some(call)) => Failing::Write(call),
            (None, None) => self.failing,
        };
        let failing = match word {
            "each_read" => Failing::EachRead,
            "each_write" => Failing::EachWrite,
            _ => failing,
        };
        Plan {
            piece: self.piece,
            failing,
            is_steady: self.is_steady || word == "steady",
        }
    }
}

fn number_behind(key: &str, word: &str) -> Option<u64> {
    let digits = word.strip_prefix(key)?;
    digits.parse::<u64>().ok()
}
