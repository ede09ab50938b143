// Laws of plans, for the crates above. Each is the contract of a function that does nothing.
ghost use Rattle.std.specs.Prelude.{◌≡◌, ◌≤◌, List, Option, Some, All, length};
ghost use Rattle.std.specs.List.{list_any};
ghost use Rattle.gm_types.specs.declared.index.IndexKind.{IndexKind};
ghost use Rattle.gm_types.specs.Index.{enabled_indexes};
ghost use Rattle.gm_types.specs.Specification.{Specification};
ghost use Rattle.gm_feature.specs.declared.feature.Feature.{Feature};
ghost use Rattle.gm_filter.specs.Suitability.{Suits};
ghost use Rattle.gm_filter.specs.Tree.{Tree};
ghost use Rattle.gm_filter.specs.Truth.{is_true};
ghost use Rattle.gm_strategy.specs.Choice.{Chosen, IsServed, IsFirstOfLeast, choice_of};
ghost use Rattle.gm_strategy.specs.Strategy.{plan_of};

use gm_filter::members_decide;

/// A filter is true of a feature exactly where that of one of its parts is.
pub fn parts_find_all()
    ensures { (s : Specification) (t : Tree) (hint : Option IndexKind) (parts : List Chosen)
        → plan_of s t hint ≡ Some parts
        → (f : Feature) → is_true f t ≡ list_any (λ part. is_true f part.wanted) parts }
{
    members_decide();
}

/// The filter of each part suits the type, its index applies to that filter and costs what is said.
/// There are one to eight parts.
pub fn parts_are_served()
    ensures served { (s : Specification) (t : Tree) (hint : Option IndexKind) (parts : List Chosen)
        → Suits s t → plan_of s t hint ≡ Some parts → All (IsServed s) parts }
    ensures few { (s : Specification) (t : Tree) (hint : Option IndexKind) (parts : List Chosen)
        → Suits s t → plan_of s t hint ≡ Some parts → (1 ≤ length parts) × (length parts ≤ 8) }
{}

/// The choice is the first of the enabled indexes of least cost.
pub fn choices_are_least()
    ensures { (s : Specification) (t : Tree)
        → IsFirstOfLeast s t (enabled_indexes s) (choice_of s t) }
{}
