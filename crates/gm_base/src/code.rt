// The codes of refused lines.
ghost use Rattle.std.specs.Prelude.{◌≡◌};
ghost use Rattle.gm_base.specs.Code.{code_name, code_phrase};

/// Why a line was refused. `docs/LANGUAGE.md` says when each comes.
#[derive(Clone, Copy, Debug, PartialEq, Eq)]
pub enum Code {
    /// The line has too many bytes.
    E01,

    /// The line is not UTF-8, and no comment.
    E02,

    /// The first word is no command.
    E03,

    /// Words of the command are missing, in excess or of the wrong form.
    E04,

    /// The type that is to be made is there already.
    E05,

    /// The type that is named is not there.
    E06,

    /// The specification of a type breaks a rule.
    E07,

    /// The row is not one record with a field for each attribute.
    E08,

    /// A field of a kind other than geometry can't be read.
    E09,

    /// A geometry can't be read, is faulty or of another kind.
    E10,

    /// The default date has no bin, and an index wants one.
    E11,

    /// The identifier has not its form.
    E12,

    /// The feature that is to be deleted is not there.
    E13,

    /// The filter is not in the grammar.
    E14,

    /// A name in the filter is no attribute.
    E15,

    /// A test has a literal that its attribute may not have.
    E16,

    /// The type has no such index enabled.
    E17,

    /// The index that is named does not apply to the filter.
    E18,

    /// A limit of types, attributes, rows, targets or filters is passed.
    E19,
}

impl Code {
    /// The code as it is printed, such as `E04`.
    pub fn name(&self) -> &str
        ensures { result.now ≡ code_name self.now }
    {
        match self {
            Code::E01 => "E01",
            Code::E02 => "E02",
            Code::E03 => "E03",
            Code::E04 => "E04",
            Code::E05 => "E05",
            Code::E06 => "E06",
            Code::E07 => "E07",
            Code::E08 => "E08",
            Code::E09 => "E09",
            Code::E10 => "E10",
            Code::E11 => "E11",
            Code::E12 => "E12",
            Code::E13 => "E13",
            Code::E14 => "E14",
            Code::E15 => "E15",
            Code::E16 => "E16",
            Code::E17 => "E17",
            Code::E18 => "E18",
            Code::E19 => "E19",
        }
    }

    /// The words that follow the code.
    pub fn phrase(&self) -> &str
        ensures { result.now ≡ code_phrase self.now }
    {
        match self {
            Code::E01 => "line too long",
            Code::E02 => "not UTF-8",
            Code::E03 => "unknown command",
            Code::E04 => "command form",
            Code::E05 => "type exists",
            Code::E06 => "no such type",
            Code::E07 => "type specification",
            Code::E08 => "field count",
            Code::E09 => "unreadable value",
            Code::E10 => "geometry",
            Code::E11 => "date outside the bins",
            Code::E12 => "identifier",
            Code::E13 => "no such feature",
            Code::E14 => "filter syntax",
            Code::E15 => "unknown attribute",
            Code::E16 => "literal",
            Code::E17 => "no such index",
            Code::E18 => "index not applicable",
            Code::E19 => "limit",
        }
    }
}
