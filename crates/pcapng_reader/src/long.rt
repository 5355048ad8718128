//! Reading the rest of blocks that have no room in the buffer.

ghost use Rattle.std.specs.Prelude.{◌≡◌, ◌+◌, ◌<◌, ◌≤◌, List, ℕ, Ok, IsTrue, false, length, take};
ghost use Rattle.acl_outside.specs.Desk.{DeskView};
ghost use Rattle.acl_outside.specs.Heard.{GoesOn};
ghost use Rattle.pcap_reader.specs.Capture.{max_captured};
ghost use Rattle.pcapng_reader.specs.Block.{BlockState, front_len, front_of, is_last};
ghost use Rattle.pcapng_reader.specs.BlockReading.{AnswersBlock, AnswersRest, EndIn, HasRead};
ghost use Rattle.pcapng_reader.specs.BlockReading.{HasRoom, IsHead, ReadsMore, captured_by};
ghost use Rattle.pcapng_reader.specs.declared.long.TheConstants.{PIECE_LEN};

use crate::blocks::{BlockRead, FRONT_LEN, read_of};
use crate::front::Front;
use crate::number::u32_in;
use crate::reader::Reader;
use crate::said::Said;
use acl_outside::{Desk, Failed};
use pcap_reader::fill::fill;
use pcap_reader::{CaptureFault, Order};

/// How many bytes are passed over at once.
const PIECE_LEN: usize = 1_024;

/// Reads the rest of a block that has no room in the buffer, of which `buffer` has the first twelve
/// bytes. What isn't read of it is passed over piece by piece.
#[inline(never)]
pub fn read_long<D: Desk>(
    desk: &mut D,
    reader: &mut Reader,
    front: &Front,
    buffer: &mut [u8],
) -> Result<BlockRead, CaptureFault>
    requires reading { IsTrue (D.view desk.old).reading }
    requires few { is_last reader.old ≡ false }
    requires front { front_of reader.old (take front_len buffer.old) ≡ Ok front.now }
    requires room { length buffer.old ≡ max_captured }
    requires long { max_captured < front.now.total }
    ensures { AnswersRest reader.old reader.new buffer.old buffer.new (D.view desk.old)
        (D.view desk.new) result }
{
    let number = reader.count + 1;
    let head = front.kind.head_len();
    match fill_part(desk, &mut buffer[FRONT_LEN..head], number) {
        Ok(()) => {}
        Err(fault) => return Err(fault),
    }
    let said = match reader.said(front, &buffer[..head]) {
        Ok(said) => said,
        Err(fault) => return Err(fault),
    };
    read_captured(desk, reader, front, said, head, buffer)
}

/// Reads the captured bytes of such a block into the front of `buffer`, where it has a packet, and
/// passes over what is after them. So many bytes of it were read, which say what it is.
fn read_captured<D: Desk>(
    desk: &mut D,
    reader: &mut Reader,
    front: &Front,
    said: Said,
    head: usize,
    buffer: &mut [u8],
) -> Result<BlockRead, CaptureFault>
    requires reading { IsTrue (D.view desk.old).reading }
    requires few { is_last reader.old ≡ false }
    requires said { HasRoom reader.old front.now said }
    requires captured { captured_by said ≤ max_captured }
    requires total { captured_by said + 32 ≤ front.now.total }
    requires head { head ≤ 28 }
    requires room { length buffer.old ≡ max_captured }
    ensures { (before : DeskView) (part : List ℕ)
        → IsHead reader.old front.now said head part
        → HasRead reader.old part GoesOn before (D.view desk.old)
        → AnswersBlock reader.old reader.new buffer.new before (D.view desk.new) result }
{
    let number = reader.count + 1;
    let captured = captured_by(said);
    match fill_part(desk, &mut buffer[..captured], number) {
        Ok(()) => {}
        Err(fault) => return Err(fault),
    }
    let rest = front.total as usize - head - captured;
    let end = match pass_over(desk, rest, front.order, number) {
        Ok(end) => end,
        Err(fault) => return Err(fault),
    };
    if end != front.total {
        return Err(CaptureFault::PngLength(number));
    }
    reader.learn(front, said);
    Ok(read_of(said, 0))
}

/// Passes over the next bytes of a block, so many, and says which number the last four are.
fn pass_over<D: Desk>(
    desk: &mut D,
    count: usize,
    order: Order,
    number: u64,
) -> Result<u32, CaptureFault>
    requires reading { IsTrue (D.view desk.old).reading }
    requires some { 4 ≤ count }
    ensures more { (state : BlockState) (part : List ℕ) (before : DeskView)
        → HasRead state part GoesOn before (D.view desk.old)
        → ReadsMore (λ end more. EndIn order count end more) state part count number before
        (D.view desk.new) result }
{
    let mut left = count - 4;
    'pieces: while left > 0 {
        let len = left.min(PIECE_LEN);
        match pass_piece(desk, len, number) {
            Ok(()) => left -= len,
            Err(fault) => return Err(fault),
        }
    }
    let mut end = [0; 4];
    match fill_part(desk, &mut end, number) {
        Ok(()) => Ok(u32_in(order, &end, 0)),
        Err(fault) => Err(fault),
    }
}

/// Passes over the next bytes of a block, so many.
fn pass_piece<D: Desk>(desk: &mut D, len: usize, number: u64) -> Result<(), CaptureFault>
    requires reading { IsTrue (D.view desk.old).reading }
    requires few { len ≤ PIECE_LEN }
    ensures more { (state : BlockState) (part : List ℕ) (before : DeskView)
        → HasRead state part GoesOn before (D.view desk.old)
        → ReadsMore (λ done more. length more ≡ len) state part len number before
        (D.view desk.new) result }
    ensures reading { (D.view desk.new).reading ≡ (D.view desk.old).reading }
{
    let mut piece = [0; PIECE_LEN];
    fill_part(desk, &mut piece[..len], number)
}

/// Fills `into` with the next bytes of a block, or says that it is cut or that a read failed.
fn fill_part<D: Desk>(desk: &mut D, into: &mut [u8], number: u64) -> Result<(), CaptureFault>
    requires reading { IsTrue (D.view desk.old).reading }
    ensures more { (state : BlockState) (part : List ℕ) (before : DeskView)
        → HasRead state part GoesOn before (D.view desk.old)
        → ReadsMore (λ done more. more ≡ into.new) state part (length into.old) number before
        (D.view desk.new) result }
    ensures reading { (D.view desk.new).reading ≡ (D.view desk.old).reading }
{
    match fill(desk, into) {
        Ok(len) if len == into.len() => Ok(()),
        Ok(_) => Err(CaptureFault::PngCut(number)),
        Err(Failed) => Err(CaptureFault::ReadFault),
    }
}

/// How many captured bytes a block says that it has.
fn captured_by(said: Said) -> usize
    ensures { result ≡ captured_by said }
{
    match said {
        Said::Packet(_, captured) => captured as usize,
        Said::Section | Said::Interface(_) | Said::Other => 0,
    }
}
