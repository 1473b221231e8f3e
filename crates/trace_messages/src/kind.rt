// What a message is, in words: a circuit and the name of what is said of it, a management message's name, or an SI and octets.
use text::part::between;
use text::put::put;
use text_hex::hex::put_hex;
use text_pages::put_number;
use trace_rows::circuit::circuit_of;
use trace_rows::held::Message;

pub fn put_kind(out: &mut [u8], at: usize, message: Message) -> usize {
    if let Some(letters) = message.name {
        return put(out, at, &letters);
    }
    let octets = message.octets;
    if let Some(circuit) = circuit_of(message) {
        let at = put(out, at, b"circuit ");
        let at = put_number(out, at, circuit, b" ");
        return put_name(out, at, octets[2]);
    }
    let at = put(out, at, b"si ");
    if message.length == 0 {
        return put_number(out, at, message.si, b"");
    }
    let at = put_number(out, at, message.si, b" ");
    put_hex(out, at, between(&octets, 0, shown(message.length)))
}

// At most eight octets are shown.
fn shown(length: u64) -> usize {
    length.min(8) as usize
}

// The name of what is said of a circuit, by its octet; two hex digits where it has none. Four places for each name, eight names in a line.
fn put_name(out: &mut [u8], at: usize, octet: u8) -> usize {
    let names: &[u8] = b"\
....IAM.SAM.INR.INF.COT.ACM.CON.\
FOT.ANM.........REL.SUS.RES.....\
RLC.CCR.RSC.BLO.UBL.BLA.UBA.GRS.\
CGB.CGU.CGBACGUA................\
................................\
....GRA.........CPG.....UCICCFN.";
    let from = 4 * (octet as usize);
    let name = between(names, from, from + 4);
    let length = name
        .iter()
        .position(|letter| *letter == b'.')
        .unwrap_or(name.len());
    if length == 0 {
        return put_hex(out, at, &[octet]);
    }
    put(out, at, between(name, 0, length))
}
