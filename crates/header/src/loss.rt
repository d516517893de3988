// A loss, passed on by a program that sends event records.
use records::LENGTH;
use stream::{Out, warn};

// Nobody knows what was lost with the input, so a reader must not go on with the old table.
pub fn send_dropped(out: &mut Out) {
    let mut record = [0u8; LENGTH];
    records::put(&mut record, records::SYN, records::DROPPED, 0);
    out.put(&record);
    warn!(
        out,
        "{}: input was lost, so SYN_DROPPED was sent\n",
        out.name()
    );
}
