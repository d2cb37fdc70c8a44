use ds_port::{
    DeviceFault, FailsAt, Files, FindFault, MemFiles, MemSink, MemSource, NeverFails, Sink, Source,
};
use ds_value::{Bytes, Copied, Name};
use std::test::Fail;

/// Here and in the next test the lists alone prove which call fails: nothing is asked when they run.
#[test]
fn lists_tell_each_answer(rt: HostRuntime) -> Result<(), Fail> {
    let alloc = rt.alloc();
    let mut buf = [0u8; 8];
    let mut source = MemSource::new(b"12".to_vec(alloc)?, FailsAt::new(vec![in alloc; 1]?));
    source.read(&mut buf).unwrap();
    source.read(&mut buf).unwrap_err();
    source.read(&mut buf).unwrap();
    MemSource::new(Vec::new(alloc), NeverFails)
        .read(&mut buf)
        .unwrap();
    MemSink::new(alloc, None, NeverFails).finish().unwrap();
    Ok(())
}

#[test]
fn lists_tell_each_call_of_files(rt: HostRuntime) -> Result<(), Fail> {
    let alloc = rt.alloc();
    let name = Name::from_bytes(alloc, b"a.txt")?.ok_or("no name")?;
    let (own, inner) = (vec![in alloc; 2]?, vec![in alloc; 0]?);
    let mut files = MemFiles::new(alloc, FailsAt::new(own), FailsAt::new(inner));
    let mut output = files.create(alloc, &name)?;
    output.finish().unwrap_err();
    output.finish().unwrap();
    files.commit(output).unwrap();
    Ok(())
}

#[test]
fn a_sink_takes_what_it_has_room_for(rt: HostRuntime) -> Result<(), Fail> {
    let mut roomy = MemSink::with_room(rt.alloc(), None, NeverFails, 8)?;
    roomy.write(b"12345678").unwrap();
    assert_eq!(rt; roomy.bytes(), b"12345678".as_slice());
    Ok(())
}

#[test]
fn each_call_fails_at_its_number(rt: HostRuntime) -> Result<(), Fail> {
    let alloc = rt.alloc();
    let name = Name::from_bytes(alloc, b"a.txt")?.ok_or("no name")?;
    let bytes = Bytes::from_vec(b"12".to_vec(alloc)?);
    let (own, inner) = (vec![in alloc; 2, 4]?, vec![in alloc; 1]?);
    let mut files = MemFiles::new(alloc, FailsAt::new(own), FailsAt::new(inner));
    files.put(name.copied()?, bytes)?;
    let mut input = files.find(alloc, &name)?;
    let mut buf = [0u8; 8];
    assert_eq!(rt; input.read(&mut buf), Ok(2));
    assert_eq!(rt; &buf[..2], b"12".as_slice());
    assert_eq!(rt; input.read(&mut buf), Err(DeviceFault));
    assert_eq!(rt; input.read(&mut buf), Ok(0));
    files.settle(input);
    let mut output = files.create(alloc, &name)?;
    assert_eq!(rt; output.write(b"7"), Ok(1));
    assert_eq!(rt; output.finish(), Err(DeviceFault));
    assert_eq!(rt; output.write(b"8"), Ok(1));
    files.discard(output);
    assert!(rt; matches!(files.find(alloc, &name), Err(FindFault::Device)));
    let mut output = files.create(alloc, &name)?;
    assert_eq!(rt; output.write(b"9"), Ok(1));
    assert_eq!(rt; files.commit(output), Err(DeviceFault));
    let output = files.create(alloc, &name)?;
    assert_eq!(rt; files.commit(output), Ok(()));
    assert_eq!(rt; files.look_up(b"a.txt").ok_or("absent")?, b"".as_slice());
    assert!(rt; files.look_up(b"b.txt").is_none());
    Ok(())
}
