// The table of the 256 command codes (01 Commands). A line is ten times the kind's number and the byte count: 19 is
// kind 1 with nine bytes. Numbers and no structs: tried, and the check of this crate takes minutes where it takes
// seconds, which the gate's time does not allow (D-04). codes.rt makes the enum of them.

const UNKNOWN: u8 = 1;

const READ_DATA: u8 = 19;

const READ_DELETED: u8 = 29;

const WRITE_DATA: u8 = 39;

const WRITE_DELETED: u8 = 49;

const READ_ID: u8 = 52;

const FORMAT: u8 = 66;

const RECALIBRATE: u8 = 72;

const SENSE_INTERRUPT: u8 = 81;

const SPECIFY: u8 = 93;

const SENSE_DRIVE: u8 = 102;

const SEEK: u8 = 113;

const VERSION: u8 = 121;

const CONFIGURE: u8 = 134;

pub const CODES: [u8; 256] = [
    UNKNOWN, // 00
    UNKNOWN,
    UNKNOWN,
    SPECIFY, // 03
    SENSE_DRIVE, // 04
    UNKNOWN,
    UNKNOWN,
    RECALIBRATE, // 07
    SENSE_INTERRUPT, // 08
    UNKNOWN,
    UNKNOWN,
    UNKNOWN,
    UNKNOWN,
    UNKNOWN,
    UNKNOWN,
    SEEK, // 0F
    VERSION, // 10
    UNKNOWN,
    UNKNOWN,
    CONFIGURE, // 13
    UNKNOWN,
    UNKNOWN,
    UNKNOWN,
    UNKNOWN,
    UNKNOWN,
    UNKNOWN,
    UNKNOWN,
    UNKNOWN,
    UNKNOWN,
    UNKNOWN,
    UNKNOWN,
    UNKNOWN,
    UNKNOWN, // 20
    UNKNOWN,
    UNKNOWN,
    UNKNOWN,
    UNKNOWN,
    UNKNOWN,
    UNKNOWN,
    UNKNOWN,
    UNKNOWN,
    UNKNOWN,
    UNKNOWN,
    UNKNOWN,
    UNKNOWN,
    UNKNOWN,
    UNKNOWN,
    UNKNOWN,
    UNKNOWN, // 30
    UNKNOWN,
    UNKNOWN,
    UNKNOWN,
    UNKNOWN,
    UNKNOWN,
    UNKNOWN,
    UNKNOWN,
    UNKNOWN,
    UNKNOWN,
    UNKNOWN,
    UNKNOWN,
    UNKNOWN,
    UNKNOWN,
    UNKNOWN,
    UNKNOWN,
    UNKNOWN, // 40
    UNKNOWN,
    UNKNOWN,
    UNKNOWN,
    UNKNOWN,
    WRITE_DATA, // 45
    READ_DATA, // 46
    UNKNOWN,
    UNKNOWN,
    WRITE_DELETED, // 49
    READ_ID, // 4A
    UNKNOWN,
    READ_DELETED, // 4C
    FORMAT, // 4D
    UNKNOWN,
    UNKNOWN,
    UNKNOWN, // 50
    UNKNOWN,
    UNKNOWN,
    UNKNOWN,
    UNKNOWN,
    UNKNOWN,
    UNKNOWN,
    UNKNOWN,
    UNKNOWN,
    UNKNOWN,
    UNKNOWN,
    UNKNOWN,
    UNKNOWN,
    UNKNOWN,
    UNKNOWN,
    UNKNOWN,
    UNKNOWN, // 60
    UNKNOWN,
    UNKNOWN,
    UNKNOWN,
    UNKNOWN,
    UNKNOWN,
    READ_DATA, // 66
    UNKNOWN,
    UNKNOWN,
    UNKNOWN,
    UNKNOWN,
    UNKNOWN,
    READ_DELETED, // 6C
    UNKNOWN,
    UNKNOWN,
    UNKNOWN,
    UNKNOWN, // 70
    UNKNOWN,
    UNKNOWN,
    UNKNOWN,
    UNKNOWN,
    UNKNOWN,
    UNKNOWN,
    UNKNOWN,
    UNKNOWN,
    UNKNOWN,
    UNKNOWN,
    UNKNOWN,
    UNKNOWN,
    UNKNOWN,
    UNKNOWN,
    UNKNOWN,
    UNKNOWN, // 80
    UNKNOWN,
    UNKNOWN,
    UNKNOWN,
    UNKNOWN,
    UNKNOWN,
    UNKNOWN,
    UNKNOWN,
    UNKNOWN,
    UNKNOWN,
    UNKNOWN,
    UNKNOWN,
    UNKNOWN,
    UNKNOWN,
    UNKNOWN,
    UNKNOWN,
    UNKNOWN, // 90
    UNKNOWN,
    UNKNOWN,
    UNKNOWN,
    UNKNOWN,
    UNKNOWN,
    UNKNOWN,
    UNKNOWN,
    UNKNOWN,
    UNKNOWN,
    UNKNOWN,
    UNKNOWN,
    UNKNOWN,
    UNKNOWN,
    UNKNOWN,
    UNKNOWN,
    UNKNOWN, // A0
    UNKNOWN,
    UNKNOWN,
    UNKNOWN,
    UNKNOWN,
    UNKNOWN,
    UNKNOWN,
    UNKNOWN,
    UNKNOWN,
    UNKNOWN,
    UNKNOWN,
    UNKNOWN,
    UNKNOWN,
    UNKNOWN,
    UNKNOWN,
    UNKNOWN,
    UNKNOWN, // B0
    UNKNOWN,
    UNKNOWN,
    UNKNOWN,
    UNKNOWN,
    UNKNOWN,
    UNKNOWN,
    UNKNOWN,
    UNKNOWN,
    UNKNOWN,
    UNKNOWN,
    UNKNOWN,
    UNKNOWN,
    UNKNOWN,
    UNKNOWN,
    UNKNOWN,
    UNKNOWN, // C0
    UNKNOWN,
    UNKNOWN,
    UNKNOWN,
    UNKNOWN,
    WRITE_DATA, // C5
    READ_DATA, // C6
    UNKNOWN,
    UNKNOWN,
    WRITE_DELETED, // C9
    UNKNOWN,
    UNKNOWN,
    READ_DELETED, // CC
    UNKNOWN,
    UNKNOWN,
    UNKNOWN,
    UNKNOWN, // D0
    UNKNOWN,
    UNKNOWN,
    UNKNOWN,
    UNKNOWN,
    UNKNOWN,
    UNKNOWN,
    UNKNOWN,
    UNKNOWN,
    UNKNOWN,
    UNKNOWN,
    UNKNOWN,
    UNKNOWN,
    UNKNOWN,
    UNKNOWN,
    UNKNOWN,
    UNKNOWN, // E0
    UNKNOWN,
    UNKNOWN,
    UNKNOWN,
    UNKNOWN,
    UNKNOWN,
    READ_DATA, // E6
    UNKNOWN,
    UNKNOWN,
    UNKNOWN,
    UNKNOWN,
    UNKNOWN,
    READ_DELETED, // EC
    UNKNOWN,
    UNKNOWN,
    UNKNOWN,
    UNKNOWN, // F0
    UNKNOWN,
    UNKNOWN,
    UNKNOWN,
    UNKNOWN,
    UNKNOWN,
    UNKNOWN,
    UNKNOWN,
    UNKNOWN,
    UNKNOWN,
    UNKNOWN,
    UNKNOWN,
    UNKNOWN,
    UNKNOWN,
    UNKNOWN,
    UNKNOWN,
];
