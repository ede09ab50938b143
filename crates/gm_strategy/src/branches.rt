// The branches of a filter, where these are few.
ghost use Rattle.std.specs.Prelude.{◌≡◌, ◌≤◌, ◌++◌, ◌∷◌, [], length, map, take, OnOk, IfOk};
ghost use Rattle.gm_filter.specs.Tree.{tree, trees_of};
ghost use Rattle.gm_strategy.specs.Branches.{branches_of, branches_in, trees_in};

use gm_base::NoMemory;
use gm_filter::Filter;
use std::alloc::Global;

/// How many branches are read apart at most.
pub(crate) const BRANCH_LIMIT: usize = 8;

/// The first branches, at most one more than the limit. Its recursion is as deep as ORs stand in
/// ORs.
pub(crate) fn first_branches<'a>(
    alloc: Global,
    filter: &'a Filter,
) -> Result<Vec<&'a Filter>, NoMemory>
    ensures { IfOk result (λ found. trees_in found.items ≡ take 9 (branches_of (tree filter.now))) }
{
    let mut found = Vec::new(alloc);
    gather(&mut found, filter)?;
    Ok(found)
}

fn add<'a>(into: &mut Vec<&'a Filter>, filter: &'a Filter) -> Result<(), NoMemory>
    requires { length into.old.items ≤ 8 }
    ensures { OnOk result (trees_in into.new.items
        ≡ take 9 (trees_in into.old.items ++ tree filter.now ∷ [])) }
{
    into.push(filter)?;
    Ok(())
}

#[cycle(gathering)]
fn gather<'a>(into: &mut Vec<&'a Filter>, filter: &'a Filter) -> Result<(), NoMemory>
    requires { length into.old.items ≤ 8 }
    ensures { OnOk result (trees_in into.new.items
        ≡ take 9 (trees_in into.old.items ++ branches_of (tree filter.now))) }
{
    match filter {
        Filter::Or(members) => gather_all(into, members),
        _ => add(into, filter),
    }
}

#[cycle(gathering)]
fn gather_all<'a>(into: &mut Vec<&'a Filter>, filters: &'a [Filter]) -> Result<(), NoMemory>
    requires { length into.old.items ≤ 8 }
    ensures { OnOk result (trees_in into.new.items
        ≡ take 9 (trees_in into.old.items ++ branches_in (trees_of (map tree filters.now)))) }
{
    'members: for filter in filters {
        if into.len() > BRANCH_LIMIT {
            return Ok(());
        }
        gather(into, filter)?;
    }
    Ok(())
}
