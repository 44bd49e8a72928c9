//! Tests.
use crate::{Task, Words, WordsFault, read_words};

fn asks(task: Task, workers: u32, number: u32) -> Result<Words, WordsFault> {
    Ok(Words {
        task,
        workers,
        number,
    })
}

#[test]
fn reads_words(rt: HostRuntime) {
    let bad = Err(WordsFault::Bad);
    let table: [(&[&str], Result<Words, WordsFault>); 45] = [
        (&["run", "--workers", "3"], asks(Task::Run, 3, 1)),
        (&["run"], asks(Task::Run, 1, 1)),
        (&["map"], asks(Task::Map, 1, 1)),
        (&["--workers=32", "unmap"], asks(Task::Unmap, 32, 1)),
        (&["--number", "0", "gen"], asks(Task::Gen, 1, 0)),
        (
            &["gen", "--number=4294967295"],
            asks(Task::Gen, 1, 4294967295),
        ),
        (
            &["--number", "0000000007", "map", "--workers", "02"],
            asks(Task::Map, 2, 7),
        ),
        (&["--", "run"], asks(Task::Run, 1, 1)),
        (&["--workers", "3", "--", "run"], asks(Task::Run, 3, 1)),
        (&["run", "--"], asks(Task::Run, 1, 1)),
        (&["run", "--workers", "0"], bad),
        (&["run", "run"], bad),
        (&["run", "--workers=2", "--workers=2"], bad),
        (&[], bad),
        (&["run", "--workers=33"], bad),
        (&["run", "--number", "4294967296"], bad),
        (&["run", "--number", "00000000001"], bad),
        (&["run", "--number="], bad),
        (&["run", "--number", ""], bad),
        (&["run", "--number", "+5"], bad),
        (&["run", "--number", "-5"], bad),
        (&["run", "--number=-5"], bad),
        (&["run", "--number==5"], bad),
        (&["run", "--number", "5 "], bad),
        (&["run", "--number", "५"], bad),
        (&["run", "--workers"], bad),
        (&["run", "--workers", "-"], bad),
        (&["run", "--workers", "--", "3"], bad),
        (&["--workers", "--number", "3", "run"], bad),
        (&["run", "--workers", "2", "--workers", "2"], bad),
        (&["run", "--workers", "2", "--number=1", "--workers=2"], bad),
        (&["--", "run", "--workers", "3"], bad),
        (&["--", "--workers=3"], bad),
        (&["--", "--workers=3", "run"], bad),
        (&["run", "--", "--"], bad),
        (&["--"], bad),
        (&["-"], bad),
        (&["run", "-"], bad),
        (&["run", "-V"], bad),
        (&["run", "-é"], bad),
        (&["--help"], bad),
        (&["help"], bad),
        (&["run", "--work=3"], bad),
        (&["run", "--=3"], bad),
        (&["Run"], bad),
    ];
    for (at, (words, want)) in table.iter().enumerate() {
        assert_eq!(rt; read_words(rt.alloc(), words), *want, "at {at}");
    }
}
