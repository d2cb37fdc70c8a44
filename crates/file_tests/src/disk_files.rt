use ds_port::{DiskFiles, Files, FindFault, MakeFault, Sink, Source};
use ds_value::Name;
use std::fs;
use std::os::unix::fs::symlink;
use std::test::Fail;

fn name_of(rt: &HostRuntime, text: &str) -> Result<Name, Fail> {
    Ok(Name::from_bytes(rt.alloc(), text.as_bytes())?.ok_or("no name")?)
}

fn is_there(rt: &HostRuntime, path: &str) -> bool {
    fs::symlink_metadata(rt, path).is_ok()
}

#[test]
fn files_are_written_committed_and_found(rt: HostRuntime) -> Result<(), Fail> {
    let alloc = rt.alloc();
    let mut files = DiskFiles::new(alloc, &rt);
    let name = name_of(&rt, "written.txt")?;
    // A part that was left behind is taken over.
    fs::write(&rt, "written.txt.part", "left behind")?;
    let mut output = files.create(alloc, &name)?;
    assert_eq!(rt; output.write(b"7,ann\n")?, 6);
    output.finish()?;
    files.commit(output)?;
    let mut input = files.find(alloc, &name)?;
    let mut buf = [0u8; 16];
    let count = input.read(&mut buf)?;
    assert_eq!(rt; &buf[..count], b"7,ann\n".as_slice());
    assert_eq!(rt; input.read(&mut buf)?, 0);
    files.settle(input);
    assert!(rt; !is_there(&rt, "written.txt.part"));
    let other = DiskFiles::new(alloc, &rt).create(alloc, &name)?;
    assert!(rt; is_there(&rt, "written.txt.part"));
    DiskFiles::new(alloc, &rt).discard(other);
    assert!(rt; !is_there(&rt, "written.txt.part"));
    fs::remove_file(&rt, "written.txt")?;
    assert!(rt; matches!(files.find(alloc, &name), Err(FindFault::Absent)));
    Ok(())
}

/// Names under which nothing is written, beside `taken.txt` that was read and `made.txt` that is being written.
static REFUSED: [&str; 7] = [
    "folder",
    "link.txt",
    "behind_folder",
    "behind_link",
    "./taken.txt",
    "./made.txt",
    "made.txt.part",
];

#[test]
fn only_plain_files_of_no_other_use_are_written_over(rt: HostRuntime) -> Result<(), Fail> {
    let alloc = rt.alloc();
    fs::create_dir(&rt, "folder")?;
    fs::create_dir(&rt, "behind_folder.part")?;
    fs::write(&rt, "taken.txt", "1\n")?;
    symlink(&rt, "taken.txt", "link.txt")?;
    symlink(&rt, "taken.txt", "behind_link.part")?;
    let mut files = DiskFiles::new(alloc, &rt);
    let input = files.find(alloc, &name_of(&rt, "taken.txt")?)?;
    let output = files.create(alloc, &name_of(&rt, "made.txt")?)?;
    for text in &REFUSED {
        let made = files.create(alloc, &name_of(&rt, text)?);
        assert!(rt; matches!(made, Err(MakeFault::Device)));
    }
    files.settle(input);
    files.discard(output);
    assert_eq!(rt; fs::read_to_string(&rt, "taken.txt")?.as_str(), "1\n");
    assert!(rt; !is_there(&rt, "made.txt.part"));
    // What another one put in place of the part isn't renamed.
    let output = files.create(alloc, &name_of(&rt, "made.txt")?)?;
    fs::rename(&rt, "taken.txt", "made.txt.part")?;
    assert!(rt; files.commit(output).is_err());
    assert!(rt; !is_there(&rt, "made.txt"));
    for path in &["link.txt", "behind_link.part", "made.txt.part"] {
        fs::remove_file(&rt, *path)?;
    }
    fs::remove_dir(&rt, "folder")?;
    fs::remove_dir(&rt, "behind_folder.part")?;
    Ok(())
}
