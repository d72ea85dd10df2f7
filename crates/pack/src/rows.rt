// A row of the record: sixteen bytes from a place on.
ghost use Rattle.std.specs.Prelude.{[], ◌∷◌, ◌≡◌, ◌+◌, ◌≤◌};
ghost use Rattle.std.proofs.lemmas.List.Edits.{sets};
ghost use Rattle.pack.specs.Bytes.{record_size, row_at};
ghost use Rattle.pack.specs.Places.{drive_row};

use crate::places::{DRIVE0_ROW, DRIVE1_ROW, DRIVE2_ROW, DRIVE3_ROW, RECORD_SIZE};

#[tactic(auto, using(crate::proofs::RowLaws::row_read))]
pub fn row_at(r: &[u8; RECORD_SIZE], at: usize) -> [u8; 16]
    requires { at + 16 ≤ record_size }
    ensures { result ≡ row_at r.now at }
{
    let mut row = [0; 16];
    row.copy_from_slice(&r[at..at + 16]);
    row
}

#[tactic(auto, using(crate::proofs::RowLaws::row_written))]
pub fn put_row(r: &mut [u8; RECORD_SIZE], at: usize, row: [u8; 16])
    requires { at + 16 ≤ record_size }
    ensures { r.new ≡ sets r.old at (row_at row 0) }
{
    r[at..at + 16].copy_from_slice(&row);
}

// Where each is tested or read, the four are named: tried, the proofs of `all` (drives_still, drives_ok), `any`
// (pending) and `map` (drives_in) did not close over rows that are themselves read.
pub fn drive_rows(r: &[u8; RECORD_SIZE]) -> [[u8; 16]; 4]
    ensures { result
        ≡ row_at r.now (drive_row 0) ∷ row_at r.now (drive_row 1)
        ∷ row_at r.now (drive_row 2) ∷ row_at r.now (drive_row 3) ∷ [] }
{
    [
        row_at(r, DRIVE0_ROW),
        row_at(r, DRIVE1_ROW),
        row_at(r, DRIVE2_ROW),
        row_at(r, DRIVE3_ROW),
    ]
}
