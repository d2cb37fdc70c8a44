use ds_schema::Row;
use ds_value::{Bytes, Copied};
use op_base::{Emit, Fault, FaultKind};
use std::test::Fail;

#[test]
fn rows_and_faults_add_up(rt: HostRuntime) -> Result<(), Fail> {
    let alloc = rt.alloc();
    let mut emit = Emit::new(alloc);
    let row = Row::from_vec(Vec::new(alloc));
    assert!(rt; emit.send(3, row).is_ok());
    for (kind, place) in [
        (FaultKind::NullUsed, 1),
        (FaultKind::Overflow, 9),
        (FaultKind::Overflow, 4),
        (FaultKind::Overflow, 7),
    ] {
        emit.fault(Fault {
            op: 0,
            kind,
            place,
            bytes: Bytes::new(alloc),
        });
    }
    assert_eq!(rt; emit.sent.as_slice().len(), 1);
    assert_eq!(rt; emit.faults, 4);
    let least = Copied::copied(&emit.least)?;
    let seen = least.as_ref().map(|fault| (fault.kind, fault.place));
    assert_eq!(rt; seen, Some((FaultKind::Overflow, 4)));
    Ok(())
}
