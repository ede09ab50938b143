// What words ask for, and what is written for a made script. Each law is the contract of a function
// that does nothing.
ghost use Rattle.std.specs.Prelude.{◌≡◌, ◌++◌, ◌∷◌, [], Some, None, codes};
ghost use Rattle.gm_engine_rows.specs.State.{State};
ghost use Rattle.gm_program.specs.Generator.{generated_script, loading};
ghost use Rattle.gm_program.specs.Lines.{lines_of};
ghost use Rattle.gm_program.specs.Machine.{machine_at, output, replies};
ghost use Rattle.gm_program.specs.Script.{made_output};
ghost use Rattle.gm_program.specs.declared.options.Made.{Made};
ghost use Rattle.gm_program.specs.declared.setting.Setting.{Setting};
ghost use Rattle.gm_program.specs.Words.{made_options, options_of, plain_options};

/// No words ask for the source's script, and `--generate SEED:COUNT` for a made one.
pub fn words_have_options()
    ensures nothing { options_of [] ≡ Some plain_options }
    ensures generate { options_of (codes "--generate" ∷ codes "7:1" ∷ [])
        ≡ Some (made_options 7 1) }
    ensures equals { options_of (codes "--generate=7:20000" ∷ []) ≡ Some (made_options 7 20000) }
    ensures greatest { options_of (codes "--generate" ∷ codes "18446744073709551615:100000" ∷ [])
        ≡ Some (made_options 18446744073709551615 100000) }
    ensures dashes { options_of (codes "--generate" ∷ codes "7:1" ∷ codes "--" ∷ [])
        ≡ Some (made_options 7 1) }
{}

/// A COUNT of 0 or above 100,000, a SEED above the greatest u64, a number that is not plain digits,
/// a repeated option, an option of another name, a request for help and any other word are faults.
pub fn faulty_words_have_no_options()
    ensures none { options_of (codes "--generate" ∷ codes "7:0" ∷ []) ≡ None }
    ensures many { options_of (codes "--generate" ∷ codes "7:100001" ∷ []) ≡ None }
    ensures great { options_of (codes "--generate" ∷ codes "18446744073709551616:1" ∷ []) ≡ None }
    ensures padded { options_of (codes "--generate" ∷ codes "007:1" ∷ []) ≡ None }
    ensures sign { options_of (codes "--generate" ∷ codes "+7:1" ∷ []) ≡ None }
    ensures half { options_of (codes "--generate" ∷ codes "7" ∷ []) ≡ None }
    ensures colons { options_of (codes "--generate" ∷ codes "7:1:1" ∷ []) ≡ None }
    ensures twice { options_of
        (codes "--generate" ∷ codes "7:1" ∷ codes "--generate" ∷ codes "7:1" ∷ []) ≡ None }
    ensures alone { options_of (codes "--generate" ∷ []) ≡ None }
    ensures short { options_of (codes "--gen" ∷ codes "7:1" ∷ []) ≡ None }
    ensures folder { options_of (codes "--folder" ∷ codes "a" ∷ []) ≡ None }
    ensures threads { options_of (codes "--threads" ∷ codes "4" ∷ []) ≡ None }
    ensures help { options_of (codes "--help" ∷ []) ≡ None }
    ensures version { options_of (codes "--version" ∷ []) ≡ None }
    ensures word { options_of (codes "a" ∷ []) ≡ None }
    ensures empty { options_of (codes "" ∷ []) ≡ None }
{}

/// What is written for a made script is its whole output without the replies that come first, those
/// to its create and put lines.
pub fn loading_is_left_out()
    ensures { (setting : Setting) (s : State) (made : Made)
        → output setting s (generated_script made.seed made.count)
        ≡ replies setting (machine_at s) (lines_of (loading made.seed made.count))
        ++ made_output setting s made }
{}
