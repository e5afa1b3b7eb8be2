//! Files of which a read fails.
use super::{FILE, Outside, TWO_WORKERS, file, local, only, run_plain};
use cs_base::Items;
use std::alloc::Global;
use std::test::Fail;

/// A host with a program, which is another file.
const HOST: &str = r#"
end = 10001
[[component]]
name = "h"
kind = "host"
ram = 65536
cycle = 1000
image = "image"
"#;

/// The number of the read that fails, what is said, and the names that are asked for.
const READS: [(u64, &str, &str); 2] = [
    (0, "cosim: file in\n", "in\n"),
    (1, "cosim: file image\n", "in\nimage\n"),
];

/// The host and an empty program, of which one read fails.
fn outside(alloc: Global, read: u64) -> Result<Outside, Fail> {
    let mut files = Items::new(alloc);
    files.push(file(alloc, FILE, HOST.as_bytes())?)?;
    files.push(file(alloc, "image", &[])?)?;
    Ok(Outside::of_files(alloc, files, only(alloc, read)?))
}

#[test]
fn a_read_that_fails_is_told(rt: HostRuntime) -> Result<(), Fail> {
    let alloc = rt.alloc();
    for (read, line, asked) in &READS {
        for command in ["model", "serial"] {
            let answer = local(alloc, &[command, FILE], outside(alloc, *read)?)?;
            assert!(rt; answer.refuses(3, line, asked), "{command} {answer:?}");
        }
        let words = ["run", FILE, TWO_WORKERS];
        let answer = run_plain(&rt, alloc, &words, outside(alloc, *read)?)?;
        assert!(rt;
            answer.refuses(3, line, asked) && answer.dials_none(),
            "{answer:?}"
        );
    }
    Ok(())
}
