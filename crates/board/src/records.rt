// Serials, and the records of the register that hold them.
ghost use Rattle.std.specs.Prelude.{◌≡◌, ◌^◌, ◌<◌, length, MatchOption};
ghost use Rattle.daybook.specs.Book.{key_in, same_bytes};
ghost use Rattle.board.specs.Serials.{is_serial_byte, record_of, serials, IsKey};

// A record of the register: the sixteen bytes of a serial, all of which count.
#[derive(Clone, Copy, PartialEq, Eq, Debug)]
pub struct Record {
    pub serial: [u8; 16],
}

impl Record {
    // Whether both hold the same serial: every byte counts. The bytes are compared as one number, in
    // one step: an array's own equality is a call for each record wherever a program compares other bytes too.
    fn is_same(self, other: Record) -> bool
        ensures same { result ≡ same_bytes self.serial other.serial }
    {
        u128::from_le_bytes(self.serial) == u128::from_le_bytes(other.serial)
    }
}

// Whether a byte may stand in a serial.
fn is_serial_byte(b: u8) -> bool
    ensures one { result ≡ is_serial_byte b }
{
    matches!(b, b'0'..=b'9' | b'A'..=b'Z')
}

// The record of a serial; none where the bytes are not one.
pub fn record_of(bytes: &[u8]) -> Option<Record>
    ensures read { result ≡ record_of bytes.now }
{
    if bytes.len() != 16 || !bytes.iter().all(|b| is_serial_byte(*b)) {
        return None;
    }
    let mut serial = [0; 16];
    serial.copy_from_slice(bytes);
    Some(Record { serial })
}

// The records of the enrolled serials, by key.
#[derive(Clone, Copy)]
pub struct Enrolled<'a> {
    pub records: &'a [Record],
    ghost few: { length records.now < 2 ^ 32 },
}

impl Enrolled<'_> {
    // The key of a serial: how many stand before it. None where it is not enrolled.
    pub fn key_of(&self, sought: &Record) -> Option<u32>
        ensures key { MatchOption result (key_in (serials self.now.records.now) sought.now.serial ≡ length self.now.records.now) (IsKey (serials self.now.records.now) sought.now.serial) }
    {
        let key = self
            .records
            .iter()
            .position(|record| record.is_same(*sought))?;
        Some(key as u32)
    }
}
