// Which lines are which commands, in the words of the language. Each law is the contract of a
// function that does nothing.
ghost use Rattle.std.specs.Prelude.{◌≡◌, ◌≤◌, ◌<◌, ◌⊎◌, ◌++◌, ◌∷◌, ◌==◌, [], ℕ, true, false};
ghost use Rattle.std.specs.Prelude.{List, Option, Some, None, Ok, Err, codes, length};
ghost use Rattle.std.specs.List.{list_any};
ghost use Rattle.std.specs.Str.{is_utf8};
ghost use Rattle.gm_base.specs.Ascii.{number_sign};
ghost use Rattle.gm_base.specs.Identifier.{is_identifier};
ghost use Rattle.gm_base.specs.declared.code.Code.TheVariants.{E01, E02, E03, E04, E05, E06};
ghost use Rattle.gm_base.specs.declared.code.Code.TheVariants.{E07, E11, E12, E17, E19};
ghost use Rattle.gm_types.specs.declared.index.IndexKind.{IndexKind};
ghost use Rattle.gm_types.specs.Reader.{specification_of};
ghost use Rattle.gm_types.specs.Specification.{Specification};
ghost use Rattle.gm_types.specs.TypeList.{number_of_name};
ghost use Rattle.gm_types.specs.Words.{is_name, same_text};
ghost use Rattle.gm_feature.specs.declared.feature.Feature.{Feature};
ghost use Rattle.gm_filter.specs.Tree.{Tree};
ghost use Rattle.gm_rows.specs.declared.fault.RowFault.{RowFault};
ghost use Rattle.gm_rows.specs.Reader.{row_of};
ghost use Rattle.gm_ecql.specs.declared.fault.FilterFault.{FilterFault};
ghost use Rattle.gm_ecql.specs.Outcome.{Meant, change_outcome, filter_outcome};
ghost use Rattle.gm_script.specs.Ask.{hinted};
ghost use Rattle.gm_script.specs.Bins.{keeps_bins};
ghost use Rattle.gm_script.specs.Fault.{filter_fault, row_fault};
ghost use Rattle.gm_script.specs.Laid.{IsLineOf, IsOnLine, IsFormed, IsUnformed, IsTypeNamed};
ghost use Rattle.gm_script.specs.Laid.{IsFormedAsk, IsUnformedAsk, Question, command_words};
ghost use Rattle.gm_script.specs.Laid.{question};
ghost use Rattle.gm_script.specs.Line.{line_limit, says_nothing};
ghost use Rattle.gm_script.specs.Order.{asked};
ghost use Rattle.gm_script.specs.Order as order;
ghost use Rattle.gm_script.specs.Reading.{attributes_too_many, reading, refused};
ghost use Rattle.gm_script.specs.Suits.{most_types};
ghost use Rattle.gm_script.specs.Words.{AreBlanks, is_no_blank, is_word};

/// A line that is too long is refused before all else. Blanks and comments say nothing, whatever
/// bytes a comment has. What is no comment is UTF-8, and its first word is that of a command.
pub fn lines_are_read()
    ensures long { (types : List Specification) (line : List ℕ) → line_limit < length line
        → reading types line ≡ refused E01 }
    ensures blank { (types : List Specification) (text line : List ℕ) → IsOnLine text line
        → AreBlanks text → reading types line ≡ Ok order.nothing }
    ensures comment { (types : List Specification) (blanks more text line : List ℕ)
        → IsOnLine text line → AreBlanks blanks → text ≡ blanks ++ (number_sign ∷ more)
        → reading types line ≡ Ok order.nothing }
    ensures bytes { (types : List Specification) (blanks more text line : List ℕ) (byte : ℕ)
        → IsOnLine text line → AreBlanks blanks → is_no_blank byte ≡ true
        → (byte == number_sign) ≡ false → text ≡ blanks ++ (byte ∷ more) → is_utf8 text ≡ false
        → reading types line ≡ refused E02 }
    ensures unknown { (types : List Specification) (word name rest line : List ℕ)
        → IsLineOf word name rest line → is_word word ≡ true → says_nothing word ≡ false
        → list_any (same_text word) command_words ≡ false → reading types line ≡ refused E03 }
{}

/// `create NAME SPEC`
pub fn creates_are_read()
    ensures form { (types : List Specification) (name text line : List ℕ)
        → IsUnformed (codes "create") name text line → reading types line ≡ refused E04 }
    ensures exists { (types : List Specification) (name text line : List ℕ) (n : ℕ)
        → IsFormed (codes "create") name text line → number_of_name types name ≡ Some n
        → reading types line ≡ refused E05 }
    ensures fault { (types : List Specification) (name text line : List ℕ)
        → IsFormed (codes "create") name text line → number_of_name types name ≡ None
        → specification_of name (length types) text ≡ None → reading types line ≡ refused E07 }
    ensures limit { (types : List Specification) (name text line : List ℕ) (t : Specification)
        → IsFormed (codes "create") name text line → number_of_name types name ≡ None
        → specification_of name (length types) text ≡ Some t
        → (most_types ≤ length types) ⊎ (attributes_too_many ≤ length t.attributes)
        → reading types line ≡ refused E19 }
    ensures read { (types : List Specification) (name text line : List ℕ) (t : Specification)
        → IsFormed (codes "create") name text line → number_of_name types name ≡ None
        → specification_of name (length types) text ≡ Some t
        → length types < most_types → length t.attributes < attributes_too_many
        → reading types line ≡ Ok (order.create t) }
{}

/// `put NAME ROW`
pub fn puts_are_read()
    ensures form { (types : List Specification) (name row line : List ℕ)
        → IsUnformed (codes "put") name row line → reading types line ≡ refused E04 }
    ensures no_type { (types : List Specification) (name row line : List ℕ)
        → IsFormed (codes "put") name row line → number_of_name types name ≡ None
        → reading types line ≡ refused E06 }
    ensures fault { (types : List Specification) (name row line : List ℕ) (n : ℕ)
        (t : Specification) (why : RowFault)
        → IsFormed (codes "put") name row line → IsTypeNamed types name n t
        → row_of t row ≡ Err why → reading types line ≡ Err (row_fault why) }
    ensures read { (types : List Specification) (name row line : List ℕ) (n : ℕ) (t : Specification)
        (feature : Feature) → IsFormed (codes "put") name row line → IsTypeNamed types name n t
        → row_of t row ≡ Ok feature → reading types line ≡ Ok (order.put n feature) }
{}

/// `delete NAME ID`
pub fn deletes_are_read()
    ensures form { (types : List Specification) (name id line : List ℕ)
        → IsUnformed (codes "delete") name id line → reading types line ≡ refused E04 }
    ensures no_type { (types : List Specification) (name id line : List ℕ)
        → IsFormed (codes "delete") name id line → number_of_name types name ≡ None
        → reading types line ≡ refused E06 }
    ensures fault { (types : List Specification) (name id line : List ℕ) (n : ℕ) (t : Specification)
        → IsFormed (codes "delete") name id line → IsTypeNamed types name n t
        → is_identifier id ≡ false → reading types line ≡ refused E12 }
    ensures read { (types : List Specification) (name id line : List ℕ) (n : ℕ) (t : Specification)
        → IsFormed (codes "delete") name id line → IsTypeNamed types name n t
        → is_identifier id ≡ true → reading types line ≡ Ok (order.delete n id) }
{}

/// `remove NAME FILTER`
pub fn removes_are_read()
    ensures form { (types : List Specification) (name text line : List ℕ)
        → IsUnformed (codes "remove") name text line → reading types line ≡ refused E04 }
    ensures no_type { (types : List Specification) (name text line : List ℕ)
        → IsFormed (codes "remove") name text line → number_of_name types name ≡ None
        → reading types line ≡ refused E06 }
    ensures fault { (types : List Specification) (name text line : List ℕ) (n : ℕ)
        (t : Specification) (why : FilterFault)
        → IsFormed (codes "remove") name text line → IsTypeNamed types name n t
        → filter_outcome t text ≡ Err why → reading types line ≡ Err (filter_fault why) }
    ensures read { (types : List Specification) (name text line : List ℕ) (n : ℕ)
        (t : Specification) (wanted : Tree)
        → IsFormed (codes "remove") name text line → IsTypeNamed types name n t
        → filter_outcome t text ≡ Ok wanted → reading types line ≡ Ok (order.remove n wanted) }
{}

/// `modify NAME ATTR LITERAL WHERE FILTER`
pub fn modifies_are_read()
    ensures form { (types : List Specification) (name text line : List ℕ)
        → IsUnformed (codes "modify") name text line → reading types line ≡ refused E04 }
    ensures no_type { (types : List Specification) (name text line : List ℕ)
        → IsFormed (codes "modify") name text line → number_of_name types name ≡ None
        → reading types line ≡ refused E06 }
    ensures fault { (types : List Specification) (name text line : List ℕ) (n : ℕ)
        (t : Specification) (why : FilterFault)
        → IsFormed (codes "modify") name text line → IsTypeNamed types name n t
        → change_outcome t text ≡ Err why → reading types line ≡ Err (filter_fault why) }
    ensures dated { (types : List Specification) (name text line : List ℕ) (n : ℕ)
        (t : Specification) (c : Meant)
        → IsFormed (codes "modify") name text line → IsTypeNamed types name n t
        → change_outcome t text ≡ Ok c → keeps_bins t c.place c.holds ≡ false
        → reading types line ≡ refused E11 }
    ensures read { (types : List Specification) (name text line : List ℕ) (n : ℕ)
        (t : Specification) (c : Meant)
        → IsFormed (codes "modify") name text line → IsTypeNamed types name n t
        → change_outcome t text ≡ Ok c → keeps_bins t c.place c.holds ≡ true
        → reading types line ≡ Ok (order.modify n c.place c.holds c.wanted) }
{}

/// `query NAME [index=I] [target=T] FILTER`, and `count` and `explain` with the same words
pub fn questions_are_read()
    ensures form { (types : List Specification) (q : Question) (name text line : List ℕ)
        (hint digits : Option (List ℕ)) → IsUnformedAsk q name hint digits text line
        → reading types line ≡ refused E04 }
    ensures no_type { (types : List Specification) (q : Question) (name text line : List ℕ)
        (hint digits : Option (List ℕ)) (target : ℕ)
        → IsFormedAsk q name hint digits target text line → number_of_name types name ≡ None
        → reading types line ≡ refused E06 }
    ensures fault { (types : List Specification) (q : Question) (name text line : List ℕ)
        (hint digits : Option (List ℕ)) (target n : ℕ) (t : Specification) (why : FilterFault)
        → IsFormedAsk q name hint digits target text line → IsTypeNamed types name n t
        → filter_outcome t text ≡ Err why → reading types line ≡ Err (filter_fault why) }
    ensures hint { (types : List Specification) (q : Question) (name text line : List ℕ)
        (hint digits : Option (List ℕ)) (target n : ℕ) (t : Specification) (wanted : Tree)
        → IsFormedAsk q name hint digits target text line → IsTypeNamed types name n t
        → filter_outcome t text ≡ Ok wanted → hinted t hint ≡ None
        → reading types line ≡ refused E17 }
    ensures read { (types : List Specification) (q : Question) (name text line : List ℕ)
        (hint digits : Option (List ℕ)) (target n : ℕ) (t : Specification) (wanted : Tree)
        (kind : Option IndexKind) → IsFormedAsk q name hint digits target text line
        → IsTypeNamed types name n t → filter_outcome t text ≡ Ok wanted → hinted t hint ≡ Some kind
        → reading types line ≡ Ok (question q (asked n kind target wanted)) }
{}

/// `describe NAME`
pub fn describes_are_read()
    ensures form { (types : List Specification) (name more line : List ℕ)
        → IsLineOf (codes "describe") name more line → (is_name name ≡ false) ⊎ (0 < length more)
        → reading types line ≡ refused E04 }
    ensures no_type { (types : List Specification) (name line : List ℕ)
        → IsLineOf (codes "describe") name [] line → is_name name ≡ true
        → number_of_name types name ≡ None → reading types line ≡ refused E06 }
    ensures read { (types : List Specification) (name line : List ℕ) (n : ℕ) (t : Specification)
        → IsLineOf (codes "describe") name [] line → is_name name ≡ true
        → IsTypeNamed types name n t → reading types line ≡ Ok (order.describe n) }
{}
