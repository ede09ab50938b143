// Laws of the rows of a state, for proofs. Each is the contract of a function that does nothing but
// call those that it rests on.
ghost use Rattle.std.specs.Prelude.{All, ◌≡◌, ◌+◌, ℕ, List, Option, Some};
ghost use Rattle.std.specs.Prelude.{true, map, length};
ghost use Rattle.std.specs.Option.{ForSome};
ghost use Rattle.gm_table.specs.Batch.{are_distinct, applied_at};
ghost use Rattle.gm_table.specs.Sorted.{IsRising, at_key};
ghost use Rattle.gm_types.specs.FeatureType.{IsType};
ghost use Rattle.gm_types.specs.Specification.{Specification};
ghost use Rattle.gm_types.specs.Words.{are_distinct as are_apart};
ghost use Rattle.gm_feature.specs.declared.feature.Feature.{Feature};
ghost use Rattle.gm_engine_rows.specs.State.{State, IsState, IsHeld, types_of, type_at};
ghost use Rattle.gm_engine_rows.specs.State.{feature_at, changed_in, with_type};
ghost use Rattle.gm_engine_rows.specs.Rows.{rows_of, IsRow};
ghost use Rattle.gm_engine_rows.specs.declared.exchange.Exchange.{Exchange};
ghost use Rattle.gm_engine_rows.specs.Exchange.{IsExchangeIn, exchanged_at, exchanged_in, new_keys};
ghost use Rattle.gm_engine_rows.specs.Exchange.{old_keys, owners_of, puts_of_all, removes_of_all};
ghost use Rattle.gm_engine_rows.specs.Change.{keys_at, removes_of, puts_of};

use gm_keys::keys_tell_features_apart;
use gm_table::rows_of_a_map;

/// The rows of a state rise, and what stands at a key is the bytes of the feature whose key it is.
pub fn rows_are_of_features()
    ensures rising { (s : State) → IsRising (rows_of s) }
    ensures found { (s : State) (key bytes : List ℕ) → at_key key (rows_of s) ≡ Some bytes
        → IsRow s key bytes }
    ensures all { (s : State) (key bytes : List ℕ) → IsState s → IsRow s key bytes
        → at_key key (rows_of s) ≡ Some bytes }
{
    keys_tell_features_apart();
    rows_of_a_map();
}

/// Where an identifier of a type is bound to another feature, or for the first time, or unbound,
/// the change turns the rows of the state into those of the state after it.
pub fn rows_follow_a_change()
    ensures { (s : State) (n : ℕ) (t : Specification) (id : List ℕ) (new : Option Feature)
        → IsState s
        → type_at n s ≡ Some t → ForSome new (IsHeld t id) → (key : List ℕ)
        → applied_at key (removes_of t (feature_at n id s) new) (puts_of t new)
        (at_key key (rows_of s))
        ≡ at_key key (rows_of (changed_in n id new s)) }
{
    keys_tell_features_apart();
    rows_of_a_map();
}

/// After such a change there are so many rows more as the new feature has keys, and so many less as
/// the old one had.
pub fn changes_are_counted()
    ensures { (s : State) (n : ℕ) (t : Specification) (id : List ℕ) (new : Option Feature)
        → IsState s
        → type_at n s ≡ Some t → ForSome new (IsHeld t id)
        → length (rows_of (changed_in n id new s)) + length (keys_at t (feature_at n id s))
        ≡ length (rows_of s) + length (keys_at t new) }
{
    keys_tell_features_apart();
    rows_of_a_map();
}

/// After such a change the state is one, and of the same types; the identifier of that type has the
/// new feature or none, and every other has what it had.
pub fn changes_keep_the_state()
    ensures state { (s : State) (n : ℕ) (t : Specification) (id : List ℕ) (new : Option Feature)
        → IsState s
        → type_at n s ≡ Some t → ForSome new (IsHeld t id) → IsState (changed_in n id new s) }
    ensures types { (s : State) (n : ℕ) (id : List ℕ) (new : Option Feature)
        → types_of (changed_in n id new s) ≡ types_of s }
    ensures here { (s : State) (n : ℕ) (t : Specification) (id : List ℕ) (new : Option Feature)
        → type_at n s ≡ Some t → feature_at n id (changed_in n id new s) ≡ new }
    ensures elsewhere { (s : State) (m n : ℕ) (i id : List ℕ) (new : Option Feature)
        → ((m ≡ n) × (i ≡ id) → ⊥) → feature_at m i (changed_in n id new s) ≡ feature_at m i s }
{}

/// Where several features of a type go or give their place to others, each of an identifier of its
/// own, the change turns the rows of the state into those of the state after it, which are so many
/// more as the new features have keys, and so many less as the old ones had.
pub fn rows_follow_exchanges()
    ensures rows { (s : State) (n : ℕ) (t : Specification) (exchanges : List Exchange) → IsState s
        → type_at n s ≡ Some t → All (IsExchangeIn s n t) exchanges
        → are_distinct (owners_of exchanges) ≡ true → (key : List ℕ)
        → applied_at key (removes_of_all t exchanges) (puts_of_all t exchanges)
        (at_key key (rows_of s)) ≡ at_key key (rows_of (exchanged_in n exchanges s)) }
    ensures counted { (s : State) (n : ℕ) (t : Specification) (exchanges : List Exchange)
        → IsState s → type_at n s ≡ Some t → All (IsExchangeIn s n t) exchanges
        → are_distinct (owners_of exchanges) ≡ true
        → length (rows_of (exchanged_in n exchanges s)) + length (old_keys t exchanges)
        ≡ length (rows_of s) + length (new_keys t exchanges) }
{
    keys_tell_features_apart();
    rows_of_a_map();
}

/// After them the state is one, and of the same types; an identifier of that type has the last
/// feature that it was given, if any, and every other type has what it had.
pub fn exchanges_keep_the_state()
    ensures state { (s : State) (n : ℕ) (t : Specification) (exchanges : List Exchange)
        → IsState s → type_at n s ≡ Some t → All (IsExchangeIn s n t) exchanges
        → are_distinct (owners_of exchanges) ≡ true → IsState (exchanged_in n exchanges s) }
    ensures types { (s : State) (n : ℕ) (exchanges : List Exchange)
        → types_of (exchanged_in n exchanges s) ≡ types_of s }
    ensures here { (s : State) (n : ℕ) (t : Specification) (id : List ℕ)
        (exchanges : List Exchange) → type_at n s ≡ Some t
        → feature_at n id (exchanged_in n exchanges s)
        ≡ exchanged_at id exchanges (feature_at n id s) }
    ensures elsewhere { (s : State) (m n : ℕ) (id : List ℕ) (exchanges : List Exchange)
        → (m ≡ n → ⊥) → feature_at m id (exchanged_in n exchanges s) ≡ feature_at m id s }
{}

/// A further type has no features and adds no rows.
pub fn a_new_type_has_no_rows()
    ensures rows { (s : State) (t : Specification) → rows_of (with_type t s) ≡ rows_of s }
    ensures state { (s : State) (t : Specification) → IsState s → IsType t → t.number ≡ length s
        → are_apart (map (λ (u : Specification). u.name) (types_of (with_type t s))) ≡ true
        → IsState (with_type t s) }
{
    rows_of_a_map();
}
