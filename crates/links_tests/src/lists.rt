//! The index list: what is walked, found and cut, and how many nodes there can be.

ghost use Rattle.std.specs.Prelude.{◌≡◌, ◌<◌, length, IfOk};
ghost use Rattle.index_list.specs.Nodes.{family_of};

use cat_model::Memory;
use index_list::{Family, IndexList, LinkFault};
use std::alloc::Global;
use std::test::Fail;

/// The most nodes that there can be.
const MOST: u32 = 1_048_576;

/// No node, and two lists in each family.
fn two_each(alloc: Global) -> Result<IndexList<u8>, Memory>
    ensures first { IfOk result (λ l. length l.first ≡ 2) }
    ensures second { IfOk result (λ l. length l.second ≡ 2) }
{
    let mut list = IndexList::new(alloc)?;
    list.new_list(Family::First)?;
    list.new_list(Family::First)?;
    list.new_list(Family::Second)?;
    list.new_list(Family::Second)?;
    Ok(list)
}

/// Links the items 1 and 2 on the first list of the first family and 3 on its second, 1 and 3 on the first list of the
/// second family and 2 on its second.
fn link_three(list: &mut IndexList<u8>) -> Result<(), LinkFault>
    requires first { length list.old.first ≡ 2 }
    requires second { length list.old.second ≡ 2 }
    ensures first { length list.new.first ≡ 2 }
    ensures second { length list.new.second ≡ 2 }
{
    list.link(0, 0, 1)?;
    list.link(0, 1, 2)?;
    list.link(1, 0, 3)?;
    Ok(())
}

fn three(alloc: Global) -> Result<IndexList<u8>, Fail>
    ensures first { IfOk result (λ l. length l.first ≡ 2) }
    ensures second { IfOk result (λ l. length l.second ≡ 2) }
{
    let mut list = two_each(alloc)?;
    link_three(&mut list)?;
    Ok(list)
}

fn walked(
    alloc: Global,
    list: &IndexList<u8>,
    family: Family,
    number: u32,
) -> Result<Vec<(u32, u8)>, Memory>
    requires { number < length (family_of family list.now) }
{
    let mut nodes = Vec::new(alloc);
    for (node, item) in list.walk(family, number) {
        nodes.push((node, *item))?;
    }
    Ok(nodes)
}

fn shows(
    alloc: Global,
    list: &IndexList<u8>,
    family: Family,
    number: u32,
    wanted: &[(u32, u8)],
) -> Result<bool, Memory>
    requires { number < length (family_of family list.now) }
{
    let nodes = walked(alloc, list, family, number)?;
    Ok(nodes.as_slice() == wanted)
}

#[test]
fn a_list_of_the_first_family_is_in_order(rt: HostRuntime) -> Result<(), Fail> {
    let alloc = rt.alloc();
    let list = three(alloc)?;
    let shown = shows(alloc, &list, Family::First, 0, &[(0, 1), (1, 2)])?;
    assert!(rt; shown);
    Ok(())
}

#[test]
fn a_list_of_the_second_family_is_in_order(rt: HostRuntime) -> Result<(), Fail> {
    let alloc = rt.alloc();
    let list = three(alloc)?;
    let shown = shows(alloc, &list, Family::Second, 0, &[(0, 1), (2, 3)])?;
    assert!(rt; shown);
    Ok(())
}

/// The length of the first list of the second family, its first node, that node's item, and the node behind it.
fn front(list: &IndexList<u8>) -> (u32, Option<(u32, u8, Option<u32>)>)
    requires { 0 < length list.now.second }
{
    let first = match list.head(Family::Second, 0) {
        Some(node) => Some((node, *list.item(node), list.next(Family::Second, node))),
        None => None,
    };
    (list.len(Family::Second, 0), first)
}

#[test]
fn a_list_has_a_first_node_and_a_next(rt: HostRuntime) -> Result<(), Fail> {
    let list = three(rt.alloc())?;
    assert_eq!(rt; front(&list), (2, Some((0, 1, Some(2)))));
    Ok(())
}

/// Whether a cut gives these items, and leaves these in the three nodes.
fn cut_gives(
    alloc: Global,
    list: &mut IndexList<u8>,
    family: Family,
    wanted: &[u8],
    left: [Option<u8>; 3],
) -> Result<bool, Memory>
    requires { 0 < length (family_of family list.old) }
{
    let items = list.cut_list(alloc, family, 0)?;
    let nodes = [
        list.get(0).copied(),
        list.get(1).copied(),
        list.get(2).copied(),
    ];
    Ok(items.as_slice() == wanted && nodes == left)
}

#[test]
fn a_cut_takes_out_a_list_of_the_first_family(rt: HostRuntime) -> Result<(), Fail> {
    let alloc = rt.alloc();
    let mut list = three(alloc)?;
    let cut = cut_gives(
        alloc,
        &mut list,
        Family::First,
        &[1, 2],
        [None, None, Some(3)],
    )?;
    assert!(rt; cut);
    Ok(())
}

#[test]
fn a_cut_takes_out_a_list_of_the_second_family(rt: HostRuntime) -> Result<(), Fail> {
    let alloc = rt.alloc();
    let mut list = three(alloc)?;
    let cut = cut_gives(
        alloc,
        &mut list,
        Family::Second,
        &[1, 3],
        [None, Some(2), None],
    )?;
    assert!(rt; cut);
    Ok(())
}

/// Links nodes until there is no place for more.
fn fill(list: &mut IndexList<u8>) -> Result<(), LinkFault>
    requires first { length list.old.first ≡ 2 }
    requires second { length list.old.second ≡ 2 }
    ensures first { length list.new.first ≡ 2 }
    ensures second { length list.new.second ≡ 2 }
{
    for _node in 0..MOST {
        list.link(1, 0, 7)?;
    }
    Ok(())
}

fn filled(alloc: Global) -> Result<IndexList<u8>, Fail>
    ensures first { IfOk result (λ l. length l.first ≡ 2) }
    ensures second { IfOk result (λ l. length l.second ≡ 2) }
{
    let mut list = two_each(alloc)?;
    fill(&mut list)?;
    Ok(list)
}

fn link(list: &mut IndexList<u8>) -> Result<u32, LinkFault>
    requires first { length list.old.first ≡ 2 }
    requires second { length list.old.second ≡ 2 }
    ensures first { length list.new.first ≡ 2 }
    ensures second { length list.new.second ≡ 2 }
{
    list.link(0, 1, 8)
}

fn take(list: &mut IndexList<u8>, node: u32) -> Option<u8>
    requires first { length list.old.first ≡ 2 }
    requires second { length list.old.second ≡ 2 }
    ensures first { length list.new.first ≡ 2 }
    ensures second { length list.new.second ≡ 2 }
{
    if list.get(node).is_some() {
        Some(list.unlink(node))
    } else {
        None
    }
}

#[test]
fn a_node_that_was_taken_out_is_free_again(rt: HostRuntime) -> Result<(), Fail> {
    let mut list = filled(rt.alloc())?;
    let more = link(&mut list);
    let taken = take(&mut list, 77);
    let again = link(&mut list);
    let full = link(&mut list);
    assert_eq!(rt; (more, taken), (Err(LinkFault::Full), Some(7)));
    assert_eq!(rt; (again, full), (Ok(77), Err(LinkFault::Full)));
    Ok(())
}
