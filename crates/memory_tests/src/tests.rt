//! Scenes over real pages.

use crate::texts::{Scene, is_right};
use crate::{data_spaces, failing, memories, pages, sources};
use data_space::DataSpace;
use page_pool::{Nowhere, Pool};
use std::alloc::Global;

fn over_space(alloc: Global, scene: Scene) -> bool {
    let Ok(made) = Pool::new(alloc) else {
        return false;
    };
    let mut pool = made;
    let mut space = DataSpace::nil();
    let mut nowhere = Nowhere;
    let mut lent = space.over(&mut pool, &mut nowhere);
    is_right(alloc, &mut lent, scene)
}

// The first scene that does not go as it should.
fn wrong_scene(alloc: Global) -> &'static str {
    if !over_space(alloc, Scene::UntilFull) {
        "texts come back until no block is free"
    } else if !over_space(alloc, Scene::Changes) {
        "two hundred texts are changed"
    } else if !over_space(alloc, Scene::AnyBytes) {
        "calls return on any bytes"
    } else if !data_spaces::each_has_its_bytes(alloc) {
        "each space has the bytes that were written to it"
    } else if !data_spaces::pages_are_shared(alloc) {
        "pages are shared"
    } else if !memories::steps_are_right(alloc) {
        "steps over a memory"
    } else if !sources::lines_come_back(alloc) {
        "lines come back from a source text"
    } else if !pages::steps_are_right(alloc) {
        "steps over pages of a disk"
    } else if !failing::nothing_is_lost(alloc) {
        "each load fails in turn, and nothing is lost"
    } else {
        ""
    }
}

#[test]
fn scenes_go_as_they_should(rt: HostRuntime) {
    assert_eq!(rt; wrong_scene(rt.alloc()), "");
}
