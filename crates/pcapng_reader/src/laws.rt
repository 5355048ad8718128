//! Laws over the definitions of a capture of either format. Their functions do nothing when they
//! are run, and take no memory.

ghost use Rattle.std.specs.Prelude.{◌≡◌, List, ℕ, [], ◌++◌, None, Ok, Err, drop, true};
ghost use Rattle.std.specs.List.{concat};
ghost use Rattle.pcap_reader.specs.declared.capture_fault.CaptureFault.{CaptureFault};
ghost use Rattle.pcap_reader.specs.Answers.{have_ending, recorded_by, records_given};
ghost use Rattle.pcap_reader.specs.State.{Answer, CaptureRecord};
ghost use Rattle.pcapng_reader.specs.Answers.{AreAnswersOn, AreAnswersTo};
ghost use Rattle.pcapng_reader.specs.Capture.{AnyState, capture_of, next_of, onward};
ghost use Rattle.pcapng_reader.specs.Capture.{records_from, whole_records};
ghost use Rattle.pcapng_reader.specs.Following.{FollowsWhole};
ghost use Rattle.pcapng_reader.specs.Reader.{IsStart, start_len, start_of};

/// The records of the bytes that are left begin with what stands next.
pub fn each_record_is_next(left: &[u8])
    ensures { (state : AnyState) → records_from state left.now
        ≡ onward (next_of state left.now) (λ now after. records_from now after) }
{}

/// Over `begin` and the calls of `next`, for any desk: the records given are the whole records of
/// the bytes that the desk gave, and none where `begin` met a fault. Once the end or a fault of the
/// capture was answered, records, link types and ending are those of the capture that these bytes
/// are.
pub fn answers_are_those_of_the_bytes_given(header: &[u8])
    ensures none { (fault : CaptureFault) → IsStart header.now [] (Err fault) →
        whole_records header.now ≡ [] }
    ensures records { (state : AnyState) (pieces : List (List ℕ)) (answers : List Answer) →
        IsStart header.now [] (Ok state) → AreAnswersTo state pieces answers →
        whole_records (header.now ++ concat pieces) ≡ records_given answers }
    ensures capture { (state : AnyState) (pieces : List (List ℕ)) (answers : List Answer) →
        IsStart header.now [] (Ok state) → AreAnswersTo state pieces answers →
        have_ending answers ≡ true →
        capture_of (header.now ++ concat pieces) ≡ Ok (recorded_by answers) }
{}

/// Over `begin` and the calls of `next`, where the file is told: once the end or a fault of the
/// capture was answered, records, link types and ending are those of the capture that the file is.
pub fn answers_are_those_of_the_file(file: &[u8])
    ensures { (state : AnyState) (answers : List Answer) → start_of file.now ≡ Ok state →
        AreAnswersOn state (drop (start_len state) file.now) answers →
        have_ending answers ≡ true → capture_of file.now ≡ Ok (recorded_by answers) }
{}

/// After a whole capture its records go on with those of the bytes after it, from a reader that has
/// counted the records so far. So a capture that grows keeps its records.
pub fn records_follow_a_whole_capture(front: &[u8], after: &[u8])
    ensures { (records : List CaptureRecord) →
        capture_of front.now ≡ Ok (record { records = records; fault = None }) →
        FollowsWhole records front.now after.now }
{}
