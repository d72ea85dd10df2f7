// Document 01's checked examples, run: what the compiled code answers, a line for each value, its tag first.
#![tactic(auto)]

use chip::codes::{Kind, entry_at};
use chip::fifo::{Fifo, Setting};
use chip::next::advance;
use chip::step::step_ticks;
use image::layout::Geometry;
use image::slot::Id;
use std::io;

fn step_times(rt: &impl Print) -> io::Result<()> {
    for srt in [0u8, 13, 15] {
        let ticks = step_ticks(srt * 16);
        println!(rt; "01 Example 1: SRT {srt} steps every {ticks}")?;
    }
    Ok(())
}

fn codes(rt: &impl Print) -> io::Result<()> {
    for code in [0x06u8, 0x46] {
        let entry = entry_at(code);
        let name = match entry.kind {
            Kind::Unknown => "unknown",
            Kind::ReadData => "Read Data",
            _ => "another command",
        };
        let bytes = entry.bytes;
        println!(rt; "01 Example 2: code {code:02X} is {name}, bytes {bytes}")?;
    }
    Ok(())
}

fn layout(rt: &impl Print) -> io::Result<()> {
    let large = Geometry {
        cylinders: 80,
        heads: 2,
        slots: 18,
        n: 2,
        protect: false,
    };
    let small = Geometry {
        cylinders: 1,
        heads: 1,
        slots: 1,
        n: 1,
        protect: false,
    };
    println!(rt; "01 Example 3: 80/2/18/N 2 has bytes {}", large.length())?;
    println!(rt; "01 Example 3: 1/1/1/N 1 has bytes {}", small.length())?;
    println!(rt;
        "01 Example 4: cylinder 0 side 1 slot 0 is at {}",
        large.offset(0, 1, 0)
    )?;
    println!(rt;
        "01 Example 4: cylinder 79 side 1 slot 17 is at {}",
        large.offset(79, 1, 17)
    )
}

fn address(h: u8, r: u8) -> Id {
    Id { c: 4, h, r, n: 2 }
}

fn addresses(rt: &impl Print) -> io::Result<()> {
    for (label, id, mt, side) in [
        ("4 0 8, EOT 9", address(0, 8), false, 0u8),
        ("4 0 9", address(0, 9), false, 0),
        ("4 0 9 with MT", address(0, 9), true, 0),
        ("4 1 9 with MT, side 1", address(1, 9), true, 1),
    ] {
        let Id { c, h, r, .. } = advance(id, 9, mt, side, 1);
        println!(rt; "01 Example 5: after {label}: {c} {h} {r}")?;
    }
    Ok(())
}

// How many bytes go into a FIFO that is on before its request to the host does.
fn bytes_to_request(fifothr: u8) -> Option<u64> {
    let set = Setting {
        efifo: false,
        fifothr,
    };
    let mut f = Fifo::empty();
    (1..17).find(|_| {
        f = f.filled(set, false, 0);
        f.asks
    })
}

fn requests(rt: &impl Print) -> io::Result<()> {
    for fifothr in [0u8, 7, 15] {
        if let Some(n) = bytes_to_request(fifothr) {
            println!(rt; "01 Example 6: FIFOTHR {fifothr} requests at {n}")?;
        }
    }
    Ok(())
}

fn main(rt: HostRuntime) -> io::Result<()> {
    step_times(&rt)?;
    codes(&rt)?;
    layout(&rt)?;
    addresses(&rt)?;
    requests(&rt)
}
