//! Command lines by their words.

use super::*;
use std::test::Fail;

/// The words as owned texts.
fn owned(rt: &impl AllocGlobal, words: &[&str]) -> Result<Vec<String>, Fail> {
    let mut texts = Vec::new(rt.alloc());
    for word in words {
        texts.push(String::from_str(rt.alloc(), word)?)?;
    }
    Ok(texts)
}

#[test]
fn flat_lines_give_image_steps_and_journal(rt: HostRuntime) -> Result<(), Fail> {
    let rows: [(&[&str], &str, u32, Option<&str>); 11] = [
        (&["flat", "a"], "a", 1_000_000, None),
        (&["flat", "a", "--steps", "10"], "a", 10, None),
        (&["flat", "--steps=10", "a"], "a", 10, None),
        (
            &["flat", "--steps", "10", "--journal", "j", "a"],
            "a",
            10,
            Some("j"),
        ),
        (
            &["flat", "--journal=j", "a", "--steps=1"],
            "a",
            1,
            Some("j"),
        ),
        (&["flat", "--", "--"], "--", 1_000_000, None),
        (&["flat", "-", "--journal=-x"], "-", 1_000_000, Some("-x")),
        (&["flat", "--journal", "-", "a"], "a", 1_000_000, Some("-")),
        (&["flat", "--steps=1", "--", "-x"], "-x", 1, None),
        (&["flat", "a", "--"], "a", 1_000_000, None),
        (
            &["flat", "a", "--steps", "00000000000100000000"],
            "a",
            100_000_000,
            None,
        ),
    ];
    for (line, wanted, limit, file) in rows {
        let words = owned(&rt, line)?;
        let Some(
            Command::Solo {
                origin: Origin::Flat { image, steps },
                journal,
            },
        ) = command_of(&words)
        else {
            return Err(Fail::from("no line of flat"));
        };
        assert_eq!(rt; image, wanted);
        assert_eq!(rt; steps, limit);
        assert_eq!(rt; journal, file);
    }
    Ok(())
}

#[test]
fn solo_lines_give_machine_and_journal(rt: HostRuntime) -> Result<(), Fail> {
    let rows: [(&[&str], &str, Option<&str>); 4] = [
        (&["solo", "m"], "m", None),
        (&["solo", "m", "--journal", "j"], "m", Some("j")),
        (&["solo", "--journal=-j", "m"], "m", Some("-j")),
        (&["solo", "--", "--flat"], "--flat", None),
    ];
    for (line, wanted, file) in rows {
        let words = owned(&rt, line)?;
        let Some(
            Command::Solo {
                origin: Origin::File { name },
                journal,
            },
        ) = command_of(&words)
        else {
            return Err(Fail::from("no line of solo"));
        };
        assert_eq!(rt; name, wanted);
        assert_eq!(rt; journal, file);
    }
    Ok(())
}

#[test]
fn check_lines_give_the_machine(rt: HostRuntime) -> Result<(), Fail> {
    let words = owned(&rt, &["check", "--", "-m"])?;
    let Some(Command::Check { name }) = command_of(&words) else {
        return Err(Fail::from("no line of check"));
    };
    assert_eq!(rt; name, "-m");
    Ok(())
}

#[test]
fn replay_lines_give_image_and_journal(rt: HostRuntime) -> Result<(), Fail> {
    let rows: [(&[&str], &str, &str); 4] = [
        (&["replay", "--flat", "i", "j"], "i", "j"),
        (&["replay", "i", "--flat", "j"], "i", "j"),
        (&["replay", "i", "j", "--flat"], "i", "j"),
        (&["replay", "--flat", "-", "--", "--flat"], "-", "--flat"),
    ];
    for (line, wanted, file) in rows {
        let words = owned(&rt, line)?;
        let Some(
            Command::Replay {
                origin: Origin::Flat { image, steps },
                journal,
            },
        ) = command_of(&words)
        else {
            return Err(Fail::from("no line of replay"));
        };
        assert_eq!(rt; image, wanted);
        assert_eq!(rt; steps, 1_000_000);
        assert_eq!(rt; journal, file);
    }
    Ok(())
}

#[test]
fn replay_lines_give_machine_and_journal(rt: HostRuntime) -> Result<(), Fail> {
    let words = owned(&rt, &["replay", "m", "j"])?;
    let Some(
        Command::Replay {
            origin: Origin::File { name },
            journal,
        },
    ) = command_of(&words)
    else {
        return Err(Fail::from("no line of replay"));
    };
    assert_eq!(rt; name, "m");
    assert_eq!(rt; journal, "j");
    Ok(())
}

#[test]
fn other_words_are_refused(rt: HostRuntime) -> Result<(), Fail> {
    let lines: [&[&str]; 44] = [
        &[],
        &["run", "a"],
        &["--steps", "1", "flat", "a"],
        &["flat"],
        &["flat", ""],
        &["flat", "-x"],
        &["flat", "--"],
        &["flat", "a", "b"],
        &["flat", "a", "--", "--steps=1"],
        &["flat", "a", "--steps"],
        &["flat", "a", "--steps", "0"],
        &["flat", "a", "--steps", "100000001"],
        &["flat", "a", "--steps", "4294967297"],
        &["flat", "a", "--steps", "1", "--steps", "1"],
        &["flat", "a", "--steps", "1", "--steps=1"],
        &["flat", "a", "--steps", "-1"],
        &["flat", "a", "--steps", "-"],
        &["flat", "a", "--steps", "--"],
        &["flat", "a", "--steps="],
        &["flat", "a", "--steps=+1"],
        &["flat", "--steps=1x", "a"],
        &["flat", "a", "--steps=000000000000000000001"],
        &["flat", "a", "--step=1"],
        &["flat", "a", "--journal"],
        &["flat", "a", "--journal", ""],
        &["flat", "a", "--journal="],
        &["flat", "a", "--journal", "-x"],
        &["flat", "a", "--journal=j", "--journal=j"],
        &["flat", "a", "--flat"],
        &["solo"],
        &["solo", ""],
        &["solo", "m", "--steps=1"],
        &["solo", "m", "--flat"],
        &["solo", "m", "--journal="],
        &["check"],
        &["check", "m", "n"],
        &["check", "m", "--journal=j"],
        &["replay", "i", "--steps=1", "j"],
        &["replay", "--flat", "i"],
        &["replay", "--flat", "i", ""],
        &["replay", "--flat", "i", "j", "k"],
        &["replay", "--flat", "--flat", "i", "j"],
        &["replay", "--flat=1", "i", "j"],
        &["replay", "--flat", "--steps=1", "i", "j"],
    ];
    for line in lines {
        let words = owned(&rt, line)?;
        assert!(rt; command_of(&words).is_none());
    }
    Ok(())
}
