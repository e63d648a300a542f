//! What a list of layers holds, and a mode that no payload spells.

use dp_layers::Tree;
use dp_msg_draw::{Draw, Title};
use std::alloc::Global;
use std::process::Abort;

/// A new row: its id, its parent, and whether it is a group.
static ROWS: [(u16, u16, bool); 6] = [
    (10, 0, true),
    (11, 10, false),
    (12, 10, true),
    (13, 12, false),
    (20, 0, false),
    (30, 0, true),
];

/// A list of these rows, of which each paint row holds its own id.
fn forest(rt: &impl Abort, alloc: Global) -> Tree<u16> {
    let mut tree = Tree::new(alloc);
    for (id, parent, group) in &ROWS {
        let command = Draw::LayerCreate {
            id: *id,
            parent: *parent,
            group: *group,
            title: Title::new(alloc),
        };
        let content = if *group { None } else { Some(*id) };
        let made = tree.create(&command, content);
        drop(command);
        assert!(rt; made.expect(rt, "memory"));
    }
    tree
}

/// How many rows hold pixels.
fn paint_rows(tree: &Tree<u16>) -> usize {
    tree.rows().iter().filter(|row| !row.group).count()
}

/// The row of an id holds this.
fn holds(tree: &Tree<u16>, id: u16, want: Option<u16>) -> bool {
    tree.content(id).copied() == want
}

/// A content is put in, and the one before it comes back.
fn check_put(rt: &impl Abort, tree: &mut Tree<u16>) {
    assert!(rt; tree.content(13).is_some());
    assert!(rt; tree.put_content(13, 99) == 13);
    assert!(rt; holds(tree, 13, Some(99)));
    assert!(rt; holds(tree, 12, None));
}

/// A content is changed where it stands. A group has none.
fn check_set(rt: &impl Abort, tree: &mut Tree<u16>) {
    if let Some(content) = tree.content_mut(11) {
        *content = 8;
    }
    assert!(rt; holds(tree, 11, Some(8)));
    assert!(rt; tree.content_mut(12).is_none());
}

#[test]
fn contents_are_put_in(rt: HostRuntime) {
    let mut tree = forest(&rt, rt.alloc());
    check_put(&rt, &mut tree);
    check_set(&rt, &mut tree);
    drop(tree);
}

/// The same rows with the contents 1 to 3.
fn remade(rt: &impl Abort, alloc: Global, tree: &Tree<u16>) -> Tree<u16> {
    assert!(rt; tree.rows().iter().filter(|row| !row.group).count() == 3);
    let contents = [1, 2, 3].to_vec(alloc).expect(rt, "memory");
    tree.remake(contents).expect(rt, "memory")
}

/// Deletes the row of an id.
fn delete(rt: &impl Abort, tree: &mut Tree<u16>, id: u16) {
    let command = Draw::LayerDelete { id };
    let deleted = tree.delete(&command);
    drop(command);
    assert!(rt; deleted.expect(rt, "memory"));
}

/// Two lists have the same rows, of which the second one holds 1 to 3.
fn check_remade(rt: &impl Abort, tree: &Tree<u16>, other: &Tree<u16>) {
    assert!(rt; holds(other, 11, Some(1)));
    assert!(rt; holds(other, 13, Some(2)));
    assert!(rt; holds(other, 20, Some(3)));
    assert!(rt; other.rows() == tree.rows());
}

/// A list has this number of rows, and so many of them hold pixels.
fn check_rows(rt: &impl Abort, tree: &Tree<u16>, rows: usize, paint: usize) {
    assert!(rt; tree.rows().len() == rows);
    assert!(rt; paint_rows(tree) == paint);
}

#[test]
fn shared_rows_change_apart(rt: HostRuntime) {
    let mut tree = forest(&rt, rt.alloc());
    let other = remade(&rt, rt.alloc(), &tree);
    check_remade(&rt, &tree, &other);
    delete(&rt, &mut tree, 10);
    check_rows(&rt, &tree, 2, 1);
    check_rows(&rt, &other, 6, 3);
    drop(tree);
    drop(other);
}

/// Sets the attributes of the row 20. Says whether that has an effect.
fn sets_mode(rt: &impl Abort, tree: &mut Tree<u16>, mode: u8) -> bool {
    let command = Draw::LayerAttr {
        id: 20,
        opacity: 7,
        mode,
        hidden: true,
    };
    let set = tree.attr(&command);
    drop(command);
    set.expect(rt, "memory")
}

/// No row has another mode or opacity than a new one.
fn are_plain(tree: &Tree<u16>) -> bool {
    tree.rows()
        .iter()
        .all(|row| row.mode == 1 && row.opacity == 255)
}

/// A mode that isn't listed has no effect. No payload spells one.
#[test]
fn an_unlisted_mode(rt: HostRuntime) {
    let mut tree = forest(&rt, rt.alloc());
    assert!(rt; !sets_mode(&rt, &mut tree, 3));
    assert!(rt; are_plain(&tree));
    assert!(rt; sets_mode(&rt, &mut tree, 9));
    drop(tree);
}
