//! Whole commands over real files, in the system's folder for temporary ones.

mod images;
mod in_memory;

use super::*;
use std::process::Abort;
use std::test::Fail;
use std::{fs, process};
use tv_fake::first_run::{IMAGE, JOURNAL, OUTPUT};

/// A path of this process's own for a temporary file of a test.
fn path(rt: &HostRuntime, test: &str, name: &str) -> Result<String, Fail> {
    let folder = env::temp_dir(rt)?;
    let id = process::id(rt.process());
    Ok(format!(in rt.alloc(); "{}/tv-{id}-{test}-{name}", folder.as_str())?)
}

/// What a command answered: its status, and what it put to both outputs.
#[derive(Drop)]
struct Answer {
    status: u8,
    out: Vec<u8>,
    err: Vec<u8>,
}

/// What a file of the system holds, which is removed then.
fn taken(rt: &HostRuntime, path: &str) -> Result<Vec<u8>, Fail> {
    let bytes = fs::read(rt, path)?;
    fs::remove_file(rt, path)?;
    Ok(bytes)
}

/// Serves words for a test over the files of the system.
fn serve(rt: &HostRuntime, test: &str, words: &[&str]) -> Result<Answer, Fail> {
    let mut texts = Vec::new(rt.alloc());
    for word in words {
        texts.push(String::from_str(rt.alloc(), word)?)?;
    }
    let out = path(rt, test, "out")?;
    let err = path(rt, test, "err")?;
    let mut outside = PlainOutside {
        store: FileStore::new(rt),
        out: WriterSink::new(fs::create(rt, &out)?),
        err: WriterSink::new(fs::create(rt, &err)?),
        random: SystemEntropy::new(rt),
    };
    let ended = plain(rt.alloc(), &texts, &mut outside);
    Ok(Answer {
        status: ended.status,
        out: taken(rt, &out)?,
        err: taken(rt, &err)?,
    })
}

/// Compares an answer.
fn expect(rt: &impl Abort, answer: &Answer, status: u8, out: &str, err: &str) {
    assert_eq!(rt; answer.status, status);
    assert_eq!(rt; answer.out.as_slice(), out.as_bytes());
    assert_eq!(rt; answer.err.as_slice(), err.as_bytes());
}

#[test]
fn journals_go_to_their_file_and_are_replayed(rt: HostRuntime) -> Result<(), Fail> {
    let image = path(&rt, "hello", "image")?;
    let journal = path(&rt, "hello", "journal")?;
    fs::write(&rt, &image, IMAGE.as_slice())?;
    // What the file held before is gone.
    fs::write(&rt, &journal, [7; 4096].as_slice())?;
    let ran = serve(&rt, "hello", &["flat", &image, "--journal", &journal])?;
    let replayed = serve(&rt, "hello", &["replay", "--flat", &image, &journal])?;
    let unwritten = serve(&rt, "hello", &["flat", "--journal=/", &image])?;
    let saved = taken(&rt, &journal)?;
    fs::remove_file(&rt, &image)?;
    expect(&rt, &ran, 0, OUTPUT, "");
    assert_eq!(rt; saved.as_slice(), JOURNAL.as_slice());
    let line = "legal: 1 records, 7 events, status 0\n";
    expect(&rt, &replayed, 0, line, "");
    expect(&rt, &unwritten, 5, "", "tv: cannot write\n");
    Ok(())
}

#[test]
fn a_journal_of_more_bytes_than_a_put_takes_is_whole(rt: HostRuntime) -> Result<(), Fail> {
    let image = path(&rt, "spin", "image")?;
    let journal = path(&rt, "spin", "journal")?;
    // A jump to itself.
    fs::write(&rt, &image, [0x6f, 0, 0, 0].as_slice())?;
    let words = ["flat", "--steps=30000", &image, "--journal", &journal];
    let ran = serve(&rt, "spin", &words)?;
    let saved = taken(&rt, &journal)?;
    fs::remove_file(&rt, &image)?;
    expect(&rt, &ran, 6, "", "tv: step limit 30000\n");
    // 468 turns of 64 events, each with a tick of 64 after it, and 48 events.
    let mut bytes = Vec::from_slice(rt.alloc(), b"TVJ1")?;
    for _ in 0..468 {
        bytes.extend_from_slice(&[1, 0, 64, 0, 0, 0, 0x0b, 64, 0, 0, 0])?;
    }
    bytes.extend_from_slice(&[1, 0, 48, 0, 0, 0])?;
    bytes.extend_from_slice(&[0, 0xa9, 0x03, 0, 0])?;
    assert_eq!(rt; saved.as_slice(), bytes.as_slice());
    Ok(())
}

#[test]
fn guests_print_what_their_texts_say(rt: HostRuntime) -> Result<(), Fail> {
    for (name, image, text) in [
        ("format", images::FORMAT, images::FORMAT_TEXT),
        ("traps", images::TRAPS, images::TRAPS_TEXT),
        ("atomics", images::ATOMICS, images::ATOMICS_TEXT),
    ] {
        let path = path(&rt, name, "image")?;
        fs::write(&rt, &path, image)?;
        let ran = serve(&rt, name, &["flat", &path])?;
        fs::remove_file(&rt, &path)?;
        expect(&rt, &ran, 0, text, "");
    }
    Ok(())
}

/// What the commands answered for a machine.
#[derive(Drop)]
struct Answers {
    checked: Answer,
    ran: Answer,
    again: Answer,
    replayed: Answer,
}

/// A machine of `guests` with its image is checked, run twice and replayed.
fn answers_of(rt: &HostRuntime, name: &str, file: &str, image: &[u8]) -> Result<Answers, Fail> {
    let image_path = path(rt, name, "image")?;
    let machine = path(rt, name, "machine")?;
    let journal = path(rt, name, "journal")?;
    fs::write(rt, &image_path, image)?;
    let named = format!(in rt.alloc(); "guests/{name}/{name}.bin")?;
    let Some((before, after)) = file.split_once(named.as_str()) else {
        return Err(Fail::from("the machine file doesn't name its image"));
    };
    let here = format!(in rt.alloc(); "{before}{}{after}", image_path.as_str())?;
    fs::write(rt, &machine, here.as_bytes())?;
    let checked = serve(rt, name, &["check", &machine])?;
    let ran = serve(rt, name, &["solo", &machine, "--journal", &journal])?;
    let again = serve(rt, name, &["solo", &machine])?;
    let replayed = serve(rt, name, &["replay", &machine, &journal])?;
    for path in [&image_path, &machine, &journal] {
        fs::remove_file(rt, path)?;
    }
    Ok(Answers {
        checked,
        ran,
        again,
        replayed,
    })
}

#[test]
fn machines_of_guests_are_checked_run_and_replayed(rt: HostRuntime) -> Result<(), Fail> {
    for (name, file, image, text) in [
        (
            "two_harts",
            images::TWO_HARTS_TOML,
            images::TWO_HARTS,
            images::TWO_HARTS_TEXT,
        ),
        (
            "probe_polled",
            images::PROBE_POLLED_TOML,
            images::PROBE_POLLED,
            images::PROBE_POLLED_TEXT,
        ),
        (
            "probe_interrupt",
            images::PROBE_INTERRUPT_TOML,
            images::PROBE_INTERRUPT,
            images::PROBE_INTERRUPT_TEXT,
        ),
    ] {
        let answers = answers_of(&rt, name, file, image)?;
        expect(&rt, &answers.checked, 0, "ok\n", "");
        expect(&rt, &answers.ran, 0, text, "");
        expect(&rt, &answers.again, 0, text, "");
        let line = &answers.replayed.out;
        assert_eq!(rt; answers.replayed.status, 0);
        assert!(rt; line.starts_with(b"legal: ") && line.ends_with(b", status 0\n"));
    }
    Ok(())
}
