//! The tree of tasks.
use crate::notes::{put, put_task};
use containers::Bytes;
use eu_base::is_name;
use std::alloc::Global;
use task_numbers::TaskNo;
use task_tree::{BeginError, TaskTree, family, listed};

const UR: TaskNo = TaskNo(1);

const PUBLIC: TaskNo = TaskNo(2);

fn put_begun(out: &mut Bytes, begun: Result<TaskNo, BeginError>) {
    match begun {
        Ok(task) => put_task(out, task),
        Err(BeginError::NameTaken) => put(out, b"n"),
        Err(BeginError::TreeFull) => put(out, b"f"),
        Err(_) => put(out, b"?"),
    }
}

fn begin(alloc: Global, out: &mut Bytes, tree: &mut TaskTree, name: &[u8], father: TaskNo) {
    if tree.lives(father) && is_name(name) {
        put_begun(out, tree.begin(alloc, name, father));
    }
}

fn end(tree: &mut TaskTree, task: TaskNo) {
    if tree.lives(task) && tree.son(task).is_nil() && task.0 > 2 {
        tree.end(task);
    }
}

// Three tasks begin, the second as a son of the first.
fn begins(alloc: Global, out: &mut Bytes, tree: &mut TaskTree) {
    begin(alloc, out, tree, b"a", PUBLIC);
    begin(alloc, out, tree, b"b", TaskNo(3));
    begin(alloc, out, tree, b"c", PUBLIC);
}

fn put_family(out: &mut Bytes, tree: &TaskTree) {
    put_task(out, tree.son(PUBLIC));
    put_task(out, tree.brother(TaskNo(3)));
    put_task(out, tree.brother(TaskNo(5)));
    put_task(out, tree.father(TaskNo(4)));
}

fn put_top(out: &mut Bytes, tree: &TaskTree) {
    put_task(out, tree.father(UR));
    put_task(out, tree.brother(UR));
    put_task(out, tree.son(TaskNo::NIL));
    put_task(out, tree.son(UR));
}

fn put_names(out: &mut Bytes, tree: &TaskTree) {
    put_task(out, tree.named(b"c"));
    put(out, tree.name(TaskNo(4)));
}

// The second of the three tasks ends, and then the first.
fn ends(out: &mut Bytes, tree: &mut TaskTree) {
    end(tree, TaskNo(4));
    end(tree, TaskNo(3));
    put_task(out, tree.son(PUBLIC));
    put_task(out, tree.named(b"a"));
    put(out, if tree.lives(TaskNo(3)) { b"l" } else { b"-" });
    put(out, tree.name(TaskNo(3)));
}

/// Sons stand by age.
pub fn by_age(alloc: Global, out: &mut Bytes) {
    if let Ok(mut tree) = TaskTree::opening(alloc) {
        begins(alloc, out, &mut tree);
        put_family(out, &tree);
        put_top(out, &tree);
        put_names(out, &tree);
        ends(out, &mut tree);
        begin(alloc, out, &mut tree, b"a", UR);
    }
}

// A blank, and each task of a family.
fn put_family_of(alloc: Global, out: &mut Bytes, tree: &TaskTree, task: TaskNo) {
    put(out, b" ");
    if let Ok(tasks) = family(alloc, tree, task) {
        for task in &tasks {
            put_task(out, *task);
        }
    }
}

// A blank, and each task with its level.
fn put_listed(alloc: Global, out: &mut Bytes, tree: &TaskTree, task: TaskNo) {
    put(out, b" ");
    if let Ok(entries) = listed(alloc, tree, task) {
        for entry in &entries {
            put_task(out, entry.task);
            put_task(out, TaskNo(entry.level));
        }
    }
}

/// The families of UR and of the first of six tasks: 3 and 5 begin below PUBLIC, 4 and 6 below 3, 7 below 4, and 8 below UR.
pub fn walks(alloc: Global, out: &mut Bytes) {
    if let Ok(mut tree) = TaskTree::opening(alloc) {
        begins(alloc, out, &mut tree);
        begin(alloc, out, &mut tree, b"d", TaskNo(3));
        begin(alloc, out, &mut tree, b"e", TaskNo(4));
        begin(alloc, out, &mut tree, b"f", UR);
        put_family_of(alloc, out, &tree, UR);
        put_listed(alloc, out, &tree, UR);
        put_listed(alloc, out, &tree, TaskNo(3));
    }
}

// Fourteen tasks begin beside the two that each tree has.
fn fill(alloc: Global, out: &mut Bytes, tree: &mut TaskTree) {
    for number in 3..17u8 {
        begin(alloc, out, tree, &[number], UR);
    }
}

/// Tasks that do not begin: a name that is taken, before the tree is full and then, and a new name then.
pub fn refused(alloc: Global, out: &mut Bytes) {
    if let Ok(mut tree) = TaskTree::opening(alloc) {
        begin(alloc, out, &mut tree, b"PUBLIC", UR);
        fill(alloc, out, &mut tree);
        begin(alloc, out, &mut tree, b"x", UR);
        begin(alloc, out, &mut tree, b"PUBLIC", UR);
    }
}
