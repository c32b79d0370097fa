//! Lines and scenes, each with the text that is noted of it.
use crate::notes::put;
use crate::{
    channels, commands, directory, display, lines, messages, rotation, rows, sessions, tables, tree,
};
use containers::Bytes;
use std::alloc::Global;
use task_numbers::TASKS;
use terminals::QUEUED_LINES;

/// Where a line comes in.
#[derive(Clone, Copy)]
enum Place {
    /// In the form with channels.
    Tagged,
    /// In the plain form.
    Plain,
    Task,
    Supervisor,
    /// As steps at the channels.
    Display,
    /// As a source of lines.
    Session,
}

fn read(alloc: Global, out: &mut Bytes, line: &[u8], place: Place) {
    match place {
        Place::Tagged => lines::events(alloc, out, line, false),
        Place::Plain => lines::events(alloc, out, line, true),
        Place::Task => commands::described(alloc, out, line, false),
        Place::Supervisor => commands::described(alloc, out, line, true),
        Place::Display => display::lines(alloc, out, line),
        Place::Session => sessions::answers(alloc, out, line),
    }
}

// Bytes, as a row spells them.
fn spelled(alloc: Global, text: &str) -> Bytes {
    let mut bytes = Bytes::new(alloc);
    for byte in text.as_bytes() {
        match *byte {
            b'|' => put(&mut bytes, b"\n"),
            b'~' => put(&mut bytes, &[b'x'; 50]),
            byte => put(&mut bytes, &[byte]),
        }
    }
    bytes
}

// Whether a line, before the arrow, is what stands behind it.
fn is_right(alloc: Global, row: &str, place: Place) -> bool {
    let (line, told) = row.split_once(" => ").unwrap_or((row, ""));
    let mut out = Bytes::new(alloc);
    read(alloc, &mut out, spelled(alloc, line).as_slice(), place);
    out.as_slice() == spelled(alloc, told).as_slice()
}

// How many rows are right, before the first that is not.
fn right_rows(alloc: Global, table: &str, place: Place) -> usize {
    let mut rows = 0usize;
    for row in table.lines() {
        if !is_right(alloc, row, place) {
            return rows;
        }
        rows = rows.saturating_add(1);
    }
    rows
}

// The first table of which not all rows are right.
fn wrong_lines(alloc: Global) -> &'static str {
    if right_rows(alloc, tables::TAGGED, Place::Tagged) != 24 {
        "tagged"
    } else if right_rows(alloc, tables::PLAIN, Place::Plain) != 8 {
        "plain"
    } else if right_rows(alloc, tables::FORMS, Place::Task) != 55 {
        "task"
    } else if right_rows(alloc, tables::COMMANDS, Place::Supervisor) != 53 {
        "supervisor"
    } else if right_rows(alloc, tables::SHOWN, Place::Display) != 6 {
        "display"
    } else if right_rows(alloc, tables::SESSIONS, Place::Session) != 13 {
        "session"
    } else {
        ""
    }
}

#[test]
fn lines_are_read_as_told(rt: HostRuntime) {
    assert_eq!(rt; wrong_lines(rt.alloc()), "");
}

#[derive(Clone, Copy)]
enum Scene {
    Turns,
    Coupled,
    SeventeenLines,
    Names,
    Offers,
    Served,
    Told,
    ByAge,
    Refused,
    Walks,
    Pieces,
}

fn play(alloc: Global, out: &mut Bytes, scene: Scene) {
    match scene {
        Scene::Turns => rotation::turns(alloc, out),
        Scene::Coupled => channels::coupled(alloc, out),
        Scene::SeventeenLines => channels::seventeen_lines(alloc, out),
        Scene::Names => directory::in_order(alloc, out),
        Scene::Offers => messages::offers(alloc, out),
        Scene::Served => messages::served(alloc, out),
        Scene::Told => messages::told(alloc, out),
        Scene::ByAge => tree::by_age(alloc, out),
        Scene::Refused => tree::refused(alloc, out),
        Scene::Walks => tree::walks(alloc, out),
        Scene::Pieces => lines::pieces(alloc, out),
    }
}

fn goes(alloc: Global, scene: Scene, told: &[u8]) -> bool {
    let mut out = Bytes::new(alloc);
    play(alloc, &mut out, scene);
    out.as_slice() == told
}

// The first scene that does not go as told.
fn wrong_scene(alloc: Global) -> &'static str {
    if !goes(alloc, Scene::Turns, b"353-") {
        "turns"
    } else if !goes(alloc, Scene::Coupled, b"71-9t0--9-") {
        "coupled"
    } else if !goes(
        alloc,
        Scene::SeventeenLines,
        b"ttttttttttttttttfabcdefghijklmnop-",
    ) {
        "seventeen lines"
    } else if !goes(alloc, Scene::Names, b"eee2--9b4c9-") {
        "names"
    } else if !goes(alloc, Scene::Offers, b"N-TN") {
        "offers"
    } else if !goes(alloc, Scene::Served, b"QQ57NT") {
        "served"
    } else if !goes(alloc, Scene::Told, b"378-") {
        "told"
    } else if !goes(alloc, Scene::ByAge, b"345350300025b50-6") {
        "by age"
    } else if !goes(alloc, Scene::Refused, b"n3456789:;<=>?@fn") {
        "refused"
    } else if !goes(
        alloc,
        Scene::Walks,
        b"345678 74635281 1021324374635281 30417261",
    ) {
        "walks"
    } else if !goes(
        alloc,
        Scene::Pieces,
        b"1,8 \n2:\n4:a\"13\"b\"127\"\nx\n3:y\n",
    ) {
        "pieces"
    } else {
        ""
    }
}

#[test]
fn scenes_go_as_told(rt: HostRuntime) {
    assert_eq!(rt; wrong_scene(rt.alloc()), "");
    assert!(rt; TASKS == 16 && QUEUED_LINES == 16);
}

#[test]
fn rows_are_taken_or_refused(rt: HostRuntime) {
    assert_eq!(rt; rows::wrong(rt.alloc()), "");
}
