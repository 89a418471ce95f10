//! Written sectors in a tree that copies share. Sector 0 stands at the root, sector 2m + 1 at m of
//! the odd branch, and sector 2m + 2 at m of the even branch, so a sector lies no deeper than its
//! number has bits. A write makes the nodes on the way to its sector that are missing, and copies
//! those that another tree owns too. Where it is refused midway, nodes without a sector may stay,
//! which show nothing.

ghost use Rattle.std.specs.Prelude.{◌≡◌, ◌==◌, if◌then◌else◌, ℕ, IfOk, IsSome, OnOk, OnErr};
ghost use Rattle.std.specs.Option.{option_map};
ghost use Rattle.std.specs.declared.option.Option.TheVariants.{Some};
ghost use Rattle.overlay_disk.specs.Trees.{at_root, node_entries, entries_of, sector_in};

use crate::NoMemory;
use std::alloc::{AllocError, Global};
use std::rc::Rc;

/// The bytes of a sector.
#[derive(Clone, Copy)]
pub(crate) struct Sector {
    pub bytes: [u8; 512],
}

/// A tree's root with its branches.
#[derive(Drop)]
pub(crate) struct Node {
    pub here: Option<Rc<Sector>>,
    pub odd: Option<Rc<Node>>,
    pub even: Option<Rc<Node>>,
}

/// The same tree, owned twice.
pub(crate) fn shared(tree: &Option<Rc<Node>>) -> Result<Option<Rc<Node>>, NoMemory>
    ensures { IfOk result (λ copy. entries_of copy ≡ entries_of tree.now) }
{
    match tree {
        Some(node) => {
            let copy = node.clone()?;
            Ok(Some(copy))
        }
        None => Ok(None),
    }
}

/// The same sector, owned twice.
fn shared_sector(sector: &Option<Rc<Sector>>) -> Result<Option<Rc<Sector>>, NoMemory>
    ensures { IfOk result (λ copy. at_root copy ≡ at_root sector.now) }
{
    match sector {
        Some(sector) => {
            let copy = sector.clone()?;
            Ok(Some(copy))
        }
        None => Ok(None),
    }
}

/// The parts of a tree, owned twice.
fn parts(tree: &Option<Rc<Node>>) -> Result<Node, NoMemory>
    ensures { IfOk result (λ node. node_entries node ≡ entries_of tree.now) }
{
    match tree {
        Some(node) => {
            let node: &Node = node;
            let here = shared_sector(&node.here)?;
            let odd = shared(&node.odd)?;
            let even = shared(&node.even)?;
            Ok(Node { here, odd, even })
        }
        None => Ok(Node {
            here: None,
            odd: None,
            even: None,
        }),
    }
}

/// A root with its branches.
fn rooted(alloc: Global, node: Node) -> Result<Rc<Node>, NoMemory>
    ensures { IfOk result (λ root. node_entries root.value ≡ node_entries node) }
{
    let root = Rc::new(alloc, node)?;
    Ok(root)
}

/// Gives a tree a root that it owns alone, which shows no sector more. What others own stays.
fn own_root(alloc: Global, tree: &mut Option<Rc<Node>>) -> Result<(), NoMemory>
    ensures root { OnOk result (IsSome tree.new) }
    ensures same { entries_of tree.new ≡ entries_of tree.old }
{
    let alone = match tree {
        Some(node) => Rc::strong_count(node) == 1,
        None => false,
    };
    if !alone {
        let node = parts(tree)?;
        *tree = Some(rooted(alloc, node)?);
    }
    Ok(())
}

/// Puts a sector in place of what stood there. A node that others own too is copied first.
pub(crate) fn put(
    alloc: Global,
    tree: &mut Option<Rc<Node>>,
    sector: u64,
    fresh: Rc<Sector>,
) -> Result<(), NoMemory>
    ensures ok { OnOk result ((k : ℕ) → sector_in tree.new k
        ≡ (if k == sector then Some fresh.value.bytes else sector_in tree.old k)) }
    ensures err { OnErr result (entries_of tree.new ≡ entries_of tree.old) }
{
    own_root(alloc, tree)?;
    let Some(root) = tree else { unreachable!() };
    let Some(node) = Rc::get_mut(root) else {
        return Err(AllocError);
    };
    if sector == 0 {
        node.here = Some(fresh);
        Ok(())
    } else if sector % 2 == 1 {
        put(alloc, &mut node.odd, (sector - 1) / 2, fresh)
    } else {
        put(alloc, &mut node.even, (sector - 1) / 2, fresh)
    }
}

/// The sector of a number, if it stands in a tree.
pub(crate) fn find(tree: &Option<Rc<Node>>, sector: u64) -> Option<&Sector>
    ensures { option_map (λ s. s.now.bytes) result ≡ sector_in tree.now sector }
{
    match tree {
        Some(node) => {
            let node: &Node = node;
            if sector == 0 {
                match &node.here {
                    Some(found) => Some(found),
                    None => None,
                }
            } else if sector % 2 == 1 {
                find(&node.odd, (sector - 1) / 2)
            } else {
                find(&node.even, (sector - 1) / 2)
            }
        }
        None => None,
    }
}
