// Marks by nodes (region.rs, `passive`): the elements with a node that is held, loaded, or of a triangle of a kept set. Internal: lists are as long as needed.
#![tactic(auto)]

ghost use Rattle.std.specs.Prelude.{◌≡◌, true, false, [], ◌+◌, ◌<◌, length, get_or, set};
ghost use Rattle.lists.specs.Lists.{tabulate};
ghost use Rattle.region_by_nodes.specs.Nodes.{of_set, by_nodes};
ghost use Rattle.region_by_nodes.specs.Steps.{flagged, flagged_set, flagged_sets, any_flagged};

pub mod boundary;

use crate::boundary::{Boundary, KeptSet};

// Whether a surface is in a set.
pub fn in_set(starts: &[u32], kept: &[u32], s: usize, surface: u32) -> bool
    requires { s + 1 < length starts.now }
    ensures { result ≡ of_set starts.now kept.now s surface }
{
    let end = (starts[s + 1] as usize).min(kept.len());
    let from = (starts[s] as usize).min(end);
    kept[from..end].contains(&surface)
}

// Flags node n, where there is one.
fn flag(n: u32, keep: &mut [bool])
    ensures { keep.new ≡ set keep.old n true }
{
    let i = n as usize;
    if i < keep.len() {
        keep[i] = true;
    }
}

// Flags the nodes of a list.
#[tactic(auto, unfolding(crate::specs::Steps::flagged, lists::specs::Lists::fold_to))]
pub fn flag_all(numbers: &[u32], keep: &mut [bool])
    ensures { keep.new ≡ flagged numbers.now (length numbers.now) keep.old }
{
    for n in numbers {
        flag(*n, keep);
    }
}

// Flags the nodes of a set.
#[tactic(auto, unfolding(crate::specs::Nodes::in_set, crate::specs::Steps::flagged_set, lists::specs::Lists::fold_to, lists::specs::Lists::choose))]
fn flag_set(set: KeptSet, keep: &mut [bool])
    ensures { let b = set.entry.boundary in keep.new ≡ flagged_set b.tris.now b.surfaces.now b.starts.now b.kept.now set.entry.number keep.old }
{
    let b = set.boundary;
    for (t, tri) in b.tris.iter().enumerate() {
        if in_set(b.starts, b.kept, set.number, b.surfaces[t]) {
            flag_all(tri, keep);
        }
    }
}

// Flags the nodes of all sets.
#[tactic(auto, unfolding(crate::specs::Steps::flagged_sets, lists::specs::Lists::fold_to))]
fn flag_sets(b: Boundary, keep: &mut [bool])
    ensures { keep.new ≡ flagged_sets b.entry.tris.now b.entry.surfaces.now b.entry.starts.now b.entry.kept.now b.entry.sets keep.old }
{
    for s in 0..b.sets {
        flag_set(b.kept_set(s), keep);
    }
}

// Whether node n is there and flagged.
fn is_flagged(keep: &[bool], n: u32) -> bool
    ensures { result ≡ get_or keep.now n false }
{
    let i = n as usize;
    if i < keep.len() { keep[i] } else { false }
}

// Whether a tetrahedron has such a node.
#[tactic(auto, unfolding(crate::specs::Steps::any_flagged, lists::specs::Lists::any_to))]
fn any_flagged(keep: &[bool], tet: [u32; 10]) -> bool
    ensures { result ≡ any_flagged keep.now tet }
{
    let mut found = false;
    for n in &tet {
        found |= is_flagged(keep, *n);
    }
    found
}

#[tactic(auto, using(lists::proofs::Filled::stored, lists::proofs::Filled::filled), unfolding(lists::specs::Lists::overwrite))]
fn mark(keep: &[bool], tets: &[[u32; 10]], marks: &mut [bool])
    requires { length marks.old ≡ length tets.now }
    ensures { marks.new ≡ tabulate (λ e. any_flagged keep.now (get_or tets.now e [])) (length tets.now) }
{
    for (e, m) in marks.iter_mut().enumerate() {
        *m = any_flagged(keep, tets[e]);
    }
}

// Marks by nodes, and no others. `keep` is to work in: a flag for each node.
pub fn by_nodes(
    tets: &[[u32; 10]],
    b: Boundary,
    held: &[u32],
    loaded: &[u32],
    keep: &mut [bool],
    marks: &mut [bool],
)
    requires { length marks.old ≡ length tets.now }
    ensures { marks.new ≡ tabulate (λ e. by_nodes b.entry.tris.now b.entry.surfaces.now b.entry.starts.now b.entry.kept.now held.now loaded.now b.entry.sets (length keep.old) (get_or tets.now e [])) (length tets.now) }
{
    keep.fill(false);
    flag_all(held, keep);
    flag_all(loaded, keep);
    flag_sets(b, keep);
    mark(keep, tets, marks);
}
