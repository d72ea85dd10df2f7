// What a data command was told (01 Commands). It stays as it is while the command is at work.
use image::slot::Id;

// What is done with each sector's bytes.
#[derive(Clone, Copy, Debug, PartialEq, Eq)]
pub enum Pass {
    Read,
    Write,
}

// Read Data, Read Deleted, Write Data, Write Deleted. dtl: DTL where N is 0; no header has that N, so it is 0 (D-127).
#[derive(Clone, Copy, Debug, PartialEq, Eq)]
pub struct Transfer {
    pub pass: Pass,
    pub deleted: bool,
    pub mt: bool,
    pub sk: bool,
    pub eot: u8,
    pub dtl: u8,
}

// Format.
#[derive(Clone, Copy, Debug, PartialEq, Eq)]
pub struct Plan {
    pub n: u8,
    pub sc: u8,
    pub fill: u8,
}

#[derive(Clone, Copy, Debug, PartialEq, Eq)]
pub enum Job {
    Identify,
    Move(Transfer, Id),
    Format(Plan),
}

#[derive(Clone, Copy, Debug, PartialEq, Eq)]
pub struct Order {
    pub drive: u8,
    pub side: u8,
    pub job: Job,
}
