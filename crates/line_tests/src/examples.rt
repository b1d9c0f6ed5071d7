use fault::{Refusal, Rejected};
use line::{Batch, Line, Ring};
use std::alloc::Global;
use std::test::Fail;
use transfer::{Answer, Call, carry, converse, make};

// A ring over memory of that many bytes.
fn ring(heap: Global, size: usize) -> Result<Ring, Fail> {
    let memory = vec![in heap; 0; size]?;
    Ring::new(memory).map_err(|_| Fail::new("no ring"))
}

#[test]
fn a_ring_goes_round_at_its_end(rt: HostRuntime) -> Result<(), Fail> {
    let mut line = ring(rt.alloc(), 5)?;
    let mut three = [0; 3];
    let mut seven = [9; 7];
    assert_eq!(rt; line.write(&[1, 2, 3, 4]), 4);
    assert_eq!(rt; line.read(&mut three), 3);
    assert_eq!(rt; line.write(&[5, 6, 7, 8, 9]), 4);
    assert_eq!(rt; line.free(), 0);
    assert_eq!(rt; line.read(&mut seven), 5);
    assert!(rt; three == [1, 2, 3]);
    assert!(rt; seven == [4, 5, 6, 7, 8, 9, 9]);
    Ok(())
}

#[test]
fn a_ring_takes_memory_of_1_to_65536_bytes(rt: HostRuntime) -> Result<(), Fail> {
    let none = Ring::new(vec![in rt.alloc()]?);
    let most = Ring::new(vec![in rt.alloc(); 0; 65536]?);
    let over = Ring::new(vec![in rt.alloc(); 7; 65537]?);
    assert!(rt; most.is_ok());
    let Err(Rejected { refusal, value }) = none else {
        return Err(Fail::new("memory of 0 bytes was taken"));
    };
    assert_eq!(rt; refusal.number(), 2);
    assert_eq!(rt; value.len(), 0);
    let Err(Rejected { refusal, value }) = over else {
        return Err(Fail::new("memory of 65,537 bytes was taken"));
    };
    assert_eq!(rt; refusal.number(), 2);
    assert!(rt; value.len() == 65537);
    assert_eq!(rt; value[65536], 7);
    Ok(())
}

#[test]
fn a_full_batch_takes_nothing_until_it_is_flushed(rt: HostRuntime) -> Result<(), Fail> {
    let mut line = Batch::new(ring(rt.alloc(), 64)?);
    assert_eq!(rt; line.write(&[1; 40]), 32);
    assert_eq!(rt; line.write(&[2]), 0);
    assert_eq!(rt; line.free(), 0);
    assert_eq!(rt; line.readable(), 0);
    line.flush();
    assert_eq!(rt; line.queued(), 32);
    assert_eq!(rt; line.readable(), 32);
    assert_eq!(rt; line.free(), 32);
    Ok(())
}

// The last digit of a total waits in the batch, and the office still reads the old one.
#[test]
fn a_byte_that_nobody_flushed_is_not_read(rt: HostRuntime) -> Result<(), Fail> {
    let mut line = Batch::new(ring(rt.alloc(), 64)?);
    let mut shown = *b"41";
    assert_eq!(rt; line.write(b"42"), 2);
    assert_eq!(rt; line.read(&mut shown), 0);
    assert!(rt; shown == *b"41");
    line.flush();
    assert_eq!(rt; line.read(&mut shown), 2);
    assert!(rt; shown == *b"42");
    Ok(())
}

// The flush that brings the second byte comes after no write: skipping it would lose the byte.
#[test]
fn a_pile_over_one_byte_gives_a_byte_with_each_flush(rt: HostRuntime) -> Result<(), Fail> {
    let mut line = Batch::new(Batch::new(ring(rt.alloc(), 1)?));
    let mut got = [0; 4];
    assert_eq!(rt; line.write(&[1, 2, 3]), 3);
    line.flush();
    assert_eq!(rt; line.readable(), 1);
    assert_eq!(rt; line.read(&mut got), 1);
    assert_eq!(rt; line.read(&mut got[1..]), 0);
    line.flush();
    assert_eq!(rt; line.read(&mut got[1..]), 1);
    line.flush();
    assert_eq!(rt; line.read(&mut got[2..]), 1);
    assert!(rt; got == [1, 2, 3, 0]);
    assert_eq!(rt; line.queued(), 0);
    Ok(())
}

#[test]
fn all_of_a_byte_string_arrives(rt: HostRuntime) -> Result<(), Fail> {
    let mut line = Batch::new(Batch::new(ring(rt.alloc(), 1)?));
    let mut into = [0; 6];
    assert!(rt; carry(&mut line, b"12345", &mut into) == Ok(5));
    assert!(rt; into == *b"12345\0");
    assert!(rt; carry(&mut line, b"", &mut into) == Ok(0));
    Ok(())
}

#[test]
fn nothing_is_carried_over_a_line_in_use(rt: HostRuntime) -> Result<(), Fail> {
    let mut line = Batch::new(ring(rt.alloc(), 8)?);
    let mut into = [0; 2];
    assert!(rt; carry(&mut line, b"123", &mut into) == Err(Refusal::Memory));
    assert_eq!(rt; line.write(&[1]), 1);
    assert!(rt; carry(&mut line, b"12", &mut into) == Err(Refusal::Waiting));
    assert_eq!(rt; Refusal::Waiting.number(), 7);
    assert!(rt; into == [0, 0]);
    assert_eq!(rt; line.queued(), 1);
    Ok(())
}

#[test]
fn calls_are_answered_one_by_one(rt: HostRuntime) -> Result<(), Fail> {
    let heap = rt.alloc();
    let mut line = Batch::new(ring(heap, 3)?);
    let mut calls = Vec::new(heap);
    calls.push(Call::Write(b"4711".to_vec(heap)?))?;
    calls.push(Call::Read(9))?;
    calls.push(Call::Flush)?;
    calls.push(Call::Read(9))?;
    let answers = converse(heap, &mut line, &calls)?;
    assert!(rt; answers.len() == 4);
    assert!(rt; matches!(&answers[0], Answer::Took(4)));
    assert!(rt; matches!(&answers[1], Answer::Gave(bytes) if bytes.is_empty()));
    assert!(rt; matches!(&answers[2], Answer::Done));
    assert!(rt;
        matches!(&answers[3], Answer::Gave(bytes) if bytes.as_slice() == b"471".as_slice())
    );
    assert_eq!(rt; line.queued(), 1);
    Ok(())
}

// A read gives a part of what can be read, and the rest stays.
#[test]
fn one_call_is_answered(rt: HostRuntime) -> Result<(), Fail> {
    let heap = rt.alloc();
    let mut line = Batch::new(ring(heap, 8)?);
    let write = Call::Write(b"4711".to_vec(heap)?);
    assert!(rt; make(heap, &mut line, &write)? == Answer::Took(4));
    assert!(rt; make(heap, &mut line, &Call::Flush)? == Answer::Done);
    let given = make(heap, &mut line, &Call::Read(3))?;
    assert!(rt; given == Answer::Gave(b"471".to_vec(heap)?));
    assert_eq!(rt; line.queued(), 1);
    Ok(())
}
