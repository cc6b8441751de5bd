//! Pictures of runs.
use crate::event_lists::list_of;
use mc_model::{Fault, Settings};
use mc_schedules::draw_items;
use std::alloc::Global;
use std::process::Abort;

/// Returns the picture of the list's run.
fn picture_of(alloc: Global, list: &str) -> Result<Vec<u8>, Fault> {
    let schedule = list_of(alloc, list)?;
    let settings = Settings::check(schedule.workers, schedule.places, schedule.tenants)?;
    let (drawn, _) = draw_items(alloc, &settings, schedule.items)?;
    Ok(drawn)
}

/// Returns whether the list's run is drawn as this picture, and an empty line after it.
fn is_picture(alloc: Global, list: &str, picture: &str) -> Result<bool, Fault> {
    let drawn = picture_of(alloc, list)?;
    let want = format!(in alloc; "{picture}\n\n")?;
    Ok(drawn.as_slice() == want.as_bytes())
}

fn assert_picture(rt: &impl Abort, alloc: Global, list: &str, picture: &str) {
    assert_eq!(rt; is_picture(alloc, list, picture), Ok(true), "{picture}");
}

/// Lists, and the pictures of their runs.
const PICTURES: [(&str, &str); 4] = [
    // A stopped worker is helped.
    (
        "core 2 8\ntenant 4 100\nannounce 0 0 set a 0 x\nstop 0\nsubmit 1 0 get a\n",
        "   line  worker 0    worker 1    log
      3  announce    |
      4  stop        |
      5              announce
      5              read empty
      5              look -> 0
      5              propose     0 (0,0)
      5              look -> 1
      5              propose *   1 (1,0)
      5              replay
      5              replay",
    ),
    // A worker learns its command by reading.
    (
        "core 2 8\ntenant 4 100\nannounce 0 0 get a\nsubmit 1 0 get a\nread 0\nread 0\nread 0\n",
        "   line  worker 0    worker 1    log
      3  announce    |
      4  |           announce
      4  |           read empty
      4  |           look -> 0
      4  |           propose     0 (0,0)
      4  |           look -> 1
      4  |           propose *   1 (1,0)
      4  |           replay
      4  |           replay
      5  read *      |
      6  read        |
      7  read empty  |",
    ),
    // Nobody to help and a place decided before.
    (
        "core 2 8\ntenant 4 100\nannounce 1 0 get a\nread 1\nlook 1\nsubmit 0 0 get a\npropose 1\nreplay 1\nread 9\n",
        "   line  worker 0    worker 1    log
      3  |           announce
      4  |           read empty
      5  |           look
      6  announce    |
      6  read empty  |
      6  look -> 0   |
      6  propose *   |           0 (0,0)
      6  replay      |
      7  |           propose
      8  |           replay",
    ),
    // Nothing happens.
    ("core 1 8\ntenant 4 100\n", "   line  worker 0    log"),
];

#[test]
fn runs_are_drawn(rt: HostRuntime) {
    for (list, picture) in PICTURES {
        assert_picture(&rt, rt.alloc(), list, picture);
    }
}

/// Returns the length of the longest line of the list's picture.
fn widest(alloc: Global, list: &str) -> Result<usize, Fault> {
    let drawn = picture_of(alloc, list)?;
    let mut widest = 0;
    for line in drawn.split(|byte| *byte == b'\n') {
        widest = widest.max(line.len());
    }
    Ok(widest)
}

#[test]
fn six_workers_fit_into_100_columns(rt: HostRuntime) {
    let list =
        "core 6 8\ntenant 4 100\nsubmit 0 0 get a\nsubmit 1 0 get a\nsubmit 2 0 get a\nsubmit 3 0 get a\nsubmit 4 0 get a\n\
        submit 5 0 get a\n";
    // The longest place and ticket have 19 columns; here they have 7.
    assert!(rt; widest(rt.alloc(), list) == Ok(100 - (19 - 7)));
}
