//! Laws over the definitions of the headers and of a capture. Their functions do nothing when they
//! are run, and take no memory.

ghost use Rattle.std.specs.Prelude.{◌≡◌, ℕ, List, [], ◌++◌, All, Ok, Err, Some, None, drop, true};
ghost use Rattle.std.specs.List.{concat};
ghost use Rattle.byteorder.specs.Endian.{big_number, little_number};
ghost use Rattle.pcap_reader.specs.Headers.{file_header_of, record_header_of};
ghost use Rattle.pcap_reader.specs.HeaderReads.{file_header_by, record_header_by};
ghost use Rattle.pcap_reader.specs.declared.capture_fault.CaptureFault.{CaptureFault};
ghost use Rattle.pcap_reader.specs.declared.start.Start.{Start};
ghost use Rattle.pcap_reader.specs.Capture.{records_from, onward, next_of, capture_of, whole_records, followed_by};
ghost use Rattle.pcap_reader.specs.Start.{start_of, file_header_len};
ghost use Rattle.pcap_reader.specs.Reader.{IsStart};
ghost use Rattle.pcap_reader.specs.declared.state.CaptureState.{CaptureState};
ghost use Rattle.pcap_reader.specs.State.{Answer, CaptureRecord, begun, state_after};
ghost use Rattle.pcap_reader.specs.ReaderStates.{state_past};
ghost use Rattle.pcap_reader.specs.Answers.{AreAnswersOn, AreAnswersTo, have_ending, recorded_by, records_given};

use crate::start::Order;

/// What [`file_header`](crate::file_header) reads in an order of byteorder's is the header in that
/// order of the format.
pub fn file_headers_are_read_in_order(bytes: &[u8; 24])
    ensures big { file_header_by big_number bytes.now ≡ file_header_of Order.Big bytes.now }
    ensures little { file_header_by little_number bytes.now
        ≡ file_header_of Order.Little bytes.now }
{}

/// What [`record_header`](crate::record_header) reads in an order of byteorder's is the header in
/// that order of the format.
pub fn record_headers_are_read_in_order(bytes: &[u8; 16])
    ensures big { record_header_by big_number bytes.now ≡ record_header_of Order.Big bytes.now }
    ensures little { record_header_by little_number bytes.now
        ≡ record_header_of Order.Little bytes.now }
{}

/// The records of the bytes that are left begin with what stands next.
pub fn each_record_is_next(left: &[u8])
    ensures { (state : CaptureState) → records_from state left.now
        ≡ onward (next_of state left.now)
        (λ captured after. records_from (state_after state (Ok (Some captured))) after) }
{}

/// Over `begin` and the calls of `next`, for any desk: the records given are the whole records of
/// the bytes that the desk gave, and none where `begin` met a fault. Once the end or a fault of the
/// capture was answered, records, link types and ending are those of the capture that these bytes
/// are.
pub fn answers_are_those_of_the_bytes_given(header: &[u8])
    ensures none { (fault : CaptureFault) → IsStart header.now [] (Err fault) →
        whole_records header.now ≡ [] }
    ensures records { (start : Start) (pieces : List (List ℕ)) (answers : List Answer) →
        IsStart header.now [] (Ok start) → AreAnswersTo (begun start) pieces answers →
        whole_records (header.now ++ concat pieces) ≡ records_given answers }
    ensures capture { (start : Start) (pieces : List (List ℕ)) (answers : List Answer) →
        IsStart header.now [] (Ok start) → AreAnswersTo (begun start) pieces answers →
        have_ending answers ≡ true →
        capture_of (header.now ++ concat pieces) ≡ Ok (recorded_by answers) }
{}

/// Over `begin` and the calls of `next`, where the file is told: once the end or a fault of the
/// capture was answered, records, link types and ending are those of the capture that the file is.
pub fn answers_are_those_of_the_file(file: &[u8])
    ensures { (start : Start) (answers : List Answer) → start_of file.now ≡ Ok start →
        AreAnswersOn (begun start) (drop file_header_len file.now) answers →
        have_ending answers ≡ true → capture_of file.now ≡ Ok (recorded_by answers) }
{}

/// After a whole capture its records go on with those of the bytes after it. So a reader that gave
/// the records of the bytes so far has, one record later, given those of one record more.
pub fn records_follow_a_whole_capture(front: &[u8], after: &[u8])
    ensures { (start : Start) (records : List CaptureRecord) → start_of front.now ≡ Ok start →
        capture_of front.now ≡ Ok (record { records = records; fault = None }) →
        capture_of (front.now ++ after.now)
        ≡ Ok (followed_by records (records_from (state_past (begun start) records) after.now)) }
{}

/// Each record that is an answer has the link type of the file header.
pub fn records_have_the_link_type_of_the_header(header: &[u8])
    ensures { (start : Start) (pieces : List (List ℕ)) (answers : List Answer) →
        IsStart header.now [] (Ok start) → AreAnswersTo (begun start) pieces answers →
        All (λ captured. captured.link ≡ start.link) (records_given answers) }
{}
