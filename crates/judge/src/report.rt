// A verdict in words (02 2026-04), with cylinder, side and slot where there is one.
use files::word::{PATH, argument};
use image::disk::disk_in;
use image::slot::Id;
use judging::doubles::Track;
use judging::fault::{Fault, Kind};
use judging::judge::judge;
use judging::place::{Place, place_of};
use std::env::Env;
use std::io;

// A word and the number behind it, each handed to standard output by itself. Piece by piece and no Display: a piece looks
// into the image, so that each would need a type that holds the image lent.
fn say(rt: &impl Print, text: &[u8], n: usize) -> io::Result<()> {
    rt.write_all(text)?;
    rt.print(n)
}

fn say_track(rt: &impl Print, track: Track) -> io::Result<()> {
    say(rt, b": cylinder ", usize::from(track.cylinder))?;
    say(rt, b" side ", usize::from(track.side))
}

fn say_slot(rt: &impl Print, track: Track, k: u8) -> io::Result<()> {
    say_track(rt, track)?;
    say(rt, b" slot ", usize::from(k))
}

fn say_twice(rt: &impl Print, track: Track, k: u8) -> io::Result<()> {
    let Id { c, h, r, n } = track.slot(k).id;
    say_slot(rt, track, k)?;
    say(rt, b", C ", usize::from(c))?;
    say(rt, b" H ", usize::from(h))?;
    say(rt, b" R ", usize::from(r))?;
    say(rt, b" N ", usize::from(n))?;
    if let Some(first) = track.first_same(k) {
        say(rt, b", first in slot ", usize::from(first))?;
    }
    Ok(())
}

fn say_mark(rt: &impl Print, track: Track, k: u8) -> io::Result<()> {
    let mark = track.slot(k).mark;
    say_slot(rt, track, k)?;
    say(rt, b", mark ", usize::from(mark))
}

// A header or a length that is wrong is that of no disk: such a fault has no place.
fn say_fault(rt: &impl Print, s: &[u8], f: Fault) -> io::Result<()> {
    let Fault { kind, at } = f;
    rt.print(kind)?;
    say(rt, b" at ", at)?;
    let Some(g) = disk_in(s) else {
        return Ok(());
    };
    let Place {
        cylinder,
        side,
        slot,
    } = place_of(g, at);
    let track = Track {
        s,
        g,
        cylinder,
        side,
    };
    match kind {
        Kind::Header | Kind::Length | Kind::End => Ok(()),
        Kind::Track | Kind::Place => say_track(rt, track),
        Kind::Mark => say_mark(rt, track, slot),
        Kind::Twice => say_twice(rt, track, slot),
    }
}

// The file that an argument names.
fn say_name(rt: &(impl Env + Print), k: usize) -> io::Result<()> {
    let mut path = [0u8; PATH];
    rt.write_all(argument(rt, k, &mut path))
}

// The line of the file that an argument names.
pub fn report(rt: &(impl Env + Print), k: usize, s: &[u8]) -> io::Result<()> {
    say_name(rt, k)?;
    rt.print(": ")?;
    match judge(s) {
        Ok(()) => rt.print("sound")?,
        Err(f) => say_fault(rt, s, f)?,
    }
    rt.print("\n")
}
