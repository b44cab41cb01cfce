//! Whole commands over objects in memory, with values worked out by hand.

use std::process::Abort;
use std::test::Fail;
use tv_fake::first_run::{IMAGE, IMAGE_WORDS, JOURNAL, OUTPUT};
use tv_fake::{MemoryEntropy, MemorySink, MemoryStore, Named, Objects};
use tv_out::Store;
use tv_top::{PlainOutside, plain};

/// What a command answered: its status, what it put, the file of the journal that it left, and the store.
#[derive(Drop)]
struct Answer {
    status: u8,
    out: MemorySink,
    err: MemorySink,
    journal: Option<MemorySink>,
    store: MemoryStore,
}

/// A list of numbers.
fn numbers(rt: &impl AllocGlobal, numbers: &[u64]) -> Result<Vec<u64>, Fail> {
    Ok(Vec::from_slice(rt.alloc(), numbers)?)
}

/// The objects of a store that has one more file.
fn with_file(
    rt: &impl AllocGlobal,
    mut objects: Objects,
    name: &str,
    bytes: &[u8],
) -> Result<Objects, Fail> {
    let name = String::from_str(rt.alloc(), name)?;
    let bytes = Vec::from_slice(rt.alloc(), bytes)?;
    objects.files.push(Named::new(name, bytes))?;
    Ok(objects)
}

/// The objects of a store that has an image.
fn with_image(rt: &impl AllocGlobal, image: &[u8]) -> Result<Objects, Fail> {
    with_file(rt, Objects::new(rt.alloc()), "image", image)
}

/// The objects of a store that has a machine file and an image.
fn with_machine(rt: &impl AllocGlobal, machine: &[u8], image: &[u8]) -> Result<Objects, Fail> {
    with_file(rt, with_image(rt, image)?, "machine", machine)
}

/// A store that knows the names `machine`, `image` and `journal`, and fails the calls with these numbers. The file
/// `journal` that it can create is this sink.
fn store(
    rt: &impl AllocGlobal,
    mut objects: Objects,
    journal: MemorySink,
    failing: &[u64],
) -> Result<MemoryStore, Fail> {
    let name = String::from_str(rt.alloc(), "journal")?;
    objects.sinks.push(Named::new(name, journal))?;
    let mut names = Vec::new(rt.alloc());
    for name in ["machine", "image", "journal"] {
        names.push(String::from_str(rt.alloc(), name)?)?;
    }
    let failing = numbers(rt, failing)?;
    Ok(MemoryStore::new(rt.alloc(), names, objects, failing)?)
}

/// A sink with room for so many bytes, of which the puts with these numbers fail.
fn sink(rt: &impl AllocGlobal, room: usize, failing: &[u64]) -> Result<MemorySink, Fail> {
    Ok(MemorySink::new(rt.alloc(), room, numbers(rt, failing)?)?)
}

/// Serves words over a store and two outputs.
fn serve_over(
    rt: &impl AllocGlobal,
    words: &[&str],
    store: MemoryStore,
    out: MemorySink,
    err: MemorySink,
) -> Result<Answer, Fail> {
    let mut texts = Vec::new(rt.alloc());
    for word in words {
        texts.push(String::from_str(rt.alloc(), word)?)?;
    }
    let mut outside = PlainOutside {
        store,
        out,
        err,
        random: MemoryEntropy::new(Vec::new(rt.alloc()), Vec::new(rt.alloc())),
    };
    let ended = plain(rt.alloc(), &texts, &mut outside);
    let PlainOutside {
        store,
        out,
        err,
        random: _,
    } = outside;
    let journal = match &ended.journal {
        Some(journal) => {
            let mut file = sink(rt, 1_000_000, &[])?;
            journal.write_file(&mut file)?;
            Some(file)
        }
        None => None,
    };
    Ok(Answer {
        status: ended.status,
        out,
        err,
        journal,
        store,
    })
}

/// The same over objects none of whose calls fails. The error output takes one put alone.
fn serve(rt: &impl AllocGlobal, words: &[&str], objects: Objects) -> Result<Answer, Fail> {
    let store = store(rt, objects, sink(rt, 256, &[])?, &[])?;
    serve_over(rt, words, store, sink(rt, 64, &[])?, sink(rt, 64, &[1])?)
}

/// Compares an answer.
fn expect(rt: &impl Abort, answer: &Answer, status: u8, out: &str, err: &str) {
    assert_eq!(rt; answer.status, status, "{err}");
    assert_eq!(rt; answer.out.as_slice(), out.as_bytes());
    assert_eq!(rt; answer.err.as_slice(), err.as_bytes());
}

/// Compares the journal that a command left.
fn expect_journal(rt: &impl Abort, answer: &Answer, file: &[u8]) {
    match &answer.journal {
        Some(journal) => assert_eq!(rt; journal.as_slice(), file),
        None => panic!(rt; "no journal"),
    }
}

/// The bytes of an image by its words.
fn image(rt: &impl AllocGlobal, words: &[u32]) -> Result<Vec<u8>, Fail> {
    let mut image = Vec::new(rt.alloc());
    for word in words {
        image.extend_from_slice(&word.to_le_bytes())?;
    }
    Ok(image)
}

#[test]
fn images_end_as_their_words_say(rt: HostRuntime) -> Result<(), Fail> {
    // Each image by its words, with the status, the output and the line.
    let rows: [(&[u32], u8, &str, &str); 8] = [
        (&IMAGE_WORDS, 0, OUTPUT, ""),
        (
            &[0x001002b7, 0x00073337, 0x33330313, 0x0062a023],
            1,
            "",
            "tv: guest failed with code 7\n",
        ),
        (
            &[0x001002b7, 0x00003337, 0x33330313, 0x0062a023],
            1,
            "",
            "tv: guest failed with code 0\n",
        ),
        (&[0x0000006f], 6, "", "tv: step limit 1000000\n"),
        // ECALL without a handler: it traps to address 0, where the hart traps on.
        (&[0x00000073], 6, "", "tv: step limit 1000000\n"),
        // `A` is put, and then the word 0 traps.
        (
            &[0x100002b7, 0x04100313, 0x00628023, 0x00000000],
            6,
            "A",
            "tv: step limit 1000000\n",
        ),
        // A handler puts 54 more than the cause of ECALL, which is 11, and returns to the instruction after it.
        (
            &[
                0x00000297, 0x02828293, 0x30529073, 0x00000073, 0x001005b7, 0x00005637, 0x55560613,
                0x00c5a023, 0x00000013, 0x00000013, 0x34202373, 0x03630313, 0x100005b7, 0x00658023,
                0x34102373, 0x00430313, 0x34131073, 0x30200073,
            ],
            0,
            "A",
            "",
        ),
        // The timer is to interrupt at 64, the time after one round; the handler puts the low digit of the cause.
        (
            &[
                0x00000297, 0x03828293, 0x30529073, 0x04000493, 0x020046b7, 0x0096b023, 0x08000313,
                0x30431073, 0x30046073, 0x0000006f, 0x00000013, 0x00000013, 0x00000013, 0x00000013,
                0x342024f3, 0x00f4f493, 0x03048493, 0x100005b7, 0x00958023, 0x001005b7, 0x00005637,
                0x55560613, 0x00c5a023,
            ],
            0,
            "7",
            "",
        ),
    ];
    for (words, status, out, line) in rows {
        let image = image(&rt, words)?;
        let answer = serve(&rt, &["flat", "image"], with_image(&rt, &image)?)?;
        expect(&rt, &answer, status, out, line);
    }
    Ok(())
}

#[test]
fn images_fill_memory_at_most(rt: HostRuntime) -> Result<(), Fail> {
    for (bytes, status, out, line) in [
        (0, 8, "", "tv: image does not fit\n"),
        (1_048_576, 0, OUTPUT, ""),
        (1_048_577, 8, "", "tv: image does not fit\n"),
    ] {
        let mut image = Vec::from_slice(rt.alloc(), &IMAGE)?;
        image.resize(bytes, 0)?;
        let answer = serve(&rt, &["flat", "image"], with_image(&rt, &image)?)?;
        expect(&rt, &answer, status, out, line);
    }
    Ok(())
}

#[test]
fn images_fill_the_memory_of_their_machine_at_most(rt: HostRuntime) -> Result<(), Fail> {
    for (bytes, status, out, line) in [
        (65_536, 0, OUTPUT, ""),
        (65_537, 8, "", "tv: image does not fit\n"),
    ] {
        let mut image = Vec::from_slice(rt.alloc(), &IMAGE)?;
        image.resize(bytes, 0)?;
        let objects = with_machine(&rt, b"image = \"image\"\nram = 65536", &image)?;
        let answer = serve(&rt, &["solo", "machine"], objects)?;
        expect(&rt, &answer, status, out, line);
    }
    Ok(())
}

#[test]
fn words_that_are_no_command_line_are_refused(rt: HostRuntime) -> Result<(), Fail> {
    let rows: [&[&str]; 5] = [
        &[],
        &["flat", ""],
        &["flat", "image", "--steps", "0"],
        &["check", "machine", "--flat"],
        &["run", "image"],
    ];
    for words in rows {
        let answer = serve(&rt, words, with_image(&rt, &IMAGE)?)?;
        expect(&rt, &answer, 2, "", "tv: bad command line\n");
        assert!(rt; answer.journal.is_none());
    }
    Ok(())
}

#[test]
fn machine_files_are_checked(rt: HostRuntime) -> Result<(), Fail> {
    // Each with its answer; the image that they name is looked at by no check.
    let rows: [(&str, u8, &str, &str); 9] = [
        ("image = \"none\"", 0, "ok\n", ""),
        (
            "image = \"none\"\nharts = 8\nram = 268435456",
            0,
            "ok\n",
            "",
        ),
        ("image = 'a", 3, "", "tv: machine file: not TOML\n"),
        ("vcpus = 1", 3, "", "tv: machine file: unknown key vcpus\n"),
        (
            "ram = 65536",
            3,
            "",
            "tv: machine file: missing key image\n",
        ),
        (
            "image = 1",
            3,
            "",
            "tv: machine file: wrong kind at image\n",
        ),
        (
            "image = 'a'\nharts = 9",
            3,
            "",
            "tv: machine file: out of range at harts\n",
        ),
        (
            "image = 'a'\ncontrol = ['a', 'b', 'a']",
            3,
            "",
            "tv: machine file: given twice at control.2\n",
        ),
        (
            "image = 'a'\n[[device]]\nkind = 'gpu'",
            3,
            "",
            "tv: machine file: out of range at device.0.kind\n",
        ),
    ];
    for (text, status, out, line) in rows {
        let objects = with_file(&rt, Objects::new(rt.alloc()), "machine", text.as_bytes())?;
        let answer = serve(&rt, &["check", "machine"], objects)?;
        expect(&rt, &answer, status, out, line);
        assert!(rt; answer.journal.is_none());
    }
    Ok(())
}

#[test]
fn machine_files_have_65536_bytes_at_most(rt: HostRuntime) -> Result<(), Fail> {
    for (bytes, status, out, line) in [
        (65_536, 0, "ok\n", ""),
        (65_537, 3, "", "tv: machine file: too long\n"),
    ] {
        let mut text = Vec::from_slice(rt.alloc(), b"image = \"image\"")?;
        text.resize(bytes, b'\n')?;
        let objects = with_file(&rt, Objects::new(rt.alloc()), "machine", &text)?;
        let answer = serve(&rt, &["check", "machine"], objects)?;
        expect(&rt, &answer, status, out, line);
    }
    Ok(())
}

#[test]
fn the_first_of_several_faults_is_told(rt: HostRuntime) -> Result<(), Fail> {
    let sound = "image = \"image\"";
    // Each by the command and what the machine file and the image hold, if they are there; and the call of the store that
    // fails.
    let rows: [(&str, Option<&str>, Option<&str>, u64, u8, &str); 10] = [
        ("solo", None, None, 9, 4, "tv: cannot read machine\n"),
        (
            "solo",
            Some("harts = 1"),
            None,
            9,
            3,
            "tv: machine file: missing key image\n",
        ),
        ("solo", Some(sound), None, 9, 4, "tv: cannot read image\n"),
        (
            "solo",
            Some(sound),
            Some("a"),
            1,
            4,
            "tv: cannot read image\n",
        ),
        (
            "solo",
            Some(sound),
            Some(""),
            9,
            8,
            "tv: image does not fit\n",
        ),
        ("solo", Some(sound), Some("a"), 2, 5, "tv: cannot write\n"),
        ("replay", None, None, 9, 4, "tv: cannot read machine\n"),
        (
            "replay",
            Some("harts = 1"),
            None,
            9,
            3,
            "tv: machine file: missing key image\n",
        ),
        (
            "replay",
            Some(sound),
            Some(""),
            9,
            8,
            "tv: image does not fit\n",
        ),
        (
            "replay",
            Some(sound),
            Some("a"),
            9,
            4,
            "tv: cannot read journal\n",
        ),
    ];
    for (command, machine, image, failing, status, line) in rows {
        let mut objects = Objects::new(rt.alloc());
        if let Some(text) = machine {
            objects = with_file(&rt, objects, "machine", text.as_bytes())?;
        }
        if let Some(text) = image {
            objects = with_file(&rt, objects, "image", text.as_bytes())?;
        }
        let store = store(&rt, objects, sink(&rt, 64, &[])?, &[failing])?;
        let (out, err) = (sink(&rt, 64, &[])?, sink(&rt, 64, &[1])?);
        let mut answer = if command == "solo" {
            serve_over(
                &rt,
                &["solo", "machine", "--journal=journal"],
                store,
                out,
                err,
            )?
        } else {
            serve_over(&rt, &["replay", "machine", "journal"], store, out, err)?
        };
        expect(&rt, &answer, status, "", line);
        assert!(rt; answer.journal.is_none());
        // The journal's file was not created, so it is still there to give.
        assert!(rt; answer.store.create("journal").is_ok());
    }
    Ok(())
}

#[test]
fn files_of_flat_that_fail_begin_no_run(rt: HostRuntime) -> Result<(), Fail> {
    // Each by the image's name, and the call of the store that fails.
    for (name, call, status, line) in [
        ("image", 0, 4, "tv: cannot read image\n"),
        ("-", 9, 4, "tv: cannot read -\n"),
        ("image", 1, 5, "tv: cannot write\n"),
    ] {
        let store = store(&rt, with_image(&rt, &IMAGE)?, sink(&rt, 64, &[])?, &[call])?;
        let words = ["flat", "--journal", "journal", name];
        let (out, err) = (sink(&rt, 64, &[])?, sink(&rt, 64, &[])?);
        let answer = serve_over(&rt, &words, store, out, err)?;
        expect(&rt, &answer, status, "", line);
        assert!(rt; answer.journal.is_none());
    }
    Ok(())
}

#[test]
fn machines_run_as_their_files_say(rt: HostRuntime) -> Result<(), Fail> {
    let looping = image(&rt, &[0x0000006f])?;
    let failing = image(&rt, &[0x001002b7, 0x00073337, 0x33330313, 0x0062a023])?;
    // Each by its machine file and image, with its journal's file.
    let rows: [(&str, &[u8], u8, &str, &str, &[u8]); 5] = [
        ("harts = 2", &IMAGE, 0, OUTPUT, "", &JOURNAL),
        (
            "",
            &failing,
            1,
            "",
            "tv: guest failed with code 7\n",
            b"TVJ1\x01\x00\x04\x00\x00\x00\x00\x01\x00\x00\x00",
        ),
        (
            "harts = 2\nsteps = 66",
            &looping,
            6,
            "",
            "tv: step limit 66\n",
            b"TVJ1\x01\x00\x40\x00\x00\x00\x01\x01\x02\x00\x00\x00\x00\x02\x00\x00\x00",
        ),
        (
            "journal_entries = 2",
            &looping,
            7,
            "",
            "tv: journal full after 2 records\n",
            b"TVJ1\x01\x00\x40\x00\x00\x00\x0b\x40\x00\x00\x00\x10\x01\x00\x02\x00\x00\x00",
        ),
        (
            "journal_entries = 1\nsteps = 64",
            &looping,
            6,
            "",
            "tv: step limit 64\n",
            b"TVJ1\x01\x00\x40\x00\x00\x00\x00\x01\x00\x00\x00",
        ),
    ];
    for (keys, image, status, out, line, journal) in rows {
        let text = format!(in rt.alloc(); "image = 'image'\n{keys}")?;
        let objects = with_machine(&rt, text.as_bytes(), image)?;
        let words = ["solo", "--journal", "journal", "machine"];
        let answer = serve(&rt, &words, objects)?;
        expect(&rt, &answer, status, out, line);
        expect_journal(&rt, &answer, journal);
        let objects = with_machine(&rt, text.as_bytes(), image)?;
        let objects = with_file(&rt, objects, "journal", journal)?;
        let again = serve(&rt, &["replay", "machine", "journal"], objects)?;
        assert_eq!(rt; again.status, 0);
    }
    Ok(())
}

/// Stores `A` and then `B` at the probe's DATA, loads it, and puts what it holds.
const POSTING: [u32; 12] = [
    0x100012b7, 0x04100313, 0x0062b823, 0x04200313, 0x0062b823, 0x0102b383, 0x10000e37, 0x007e0023,
    0x00100eb7, 0x00005f37, 0x555f0f13, 0x01eea023,
];

/// Hart 0 stores 0x33 at DATA and loads COUNT, hart 1 loads DATA. Hart 0 puts COUNT as a digit, hart 1 puts DATA.
const LOADING: [u32; 18] = [
    0x100012b7, 0x10000e37, 0x02051a63, 0x03300313, 0x0062b823, 0x0202b383, 0x03038393, 0x007e0023,
    0x01f00e93, 0xfffe8e93, 0xfe0e9ee3, 0x00100eb7, 0x00005f37, 0x555f0f13, 0x01eea023, 0x0102b383,
    0x007e0023, 0x0000006f,
];

/// Has the probe write 4 bytes at 0x8000_0ffe and then 2, raise its interrupt, and write 9 bytes there; puts the digit of
/// RESULT after each.
const ASKING: [u32; 25] = [
    0x100012b7, 0x10000e37, 0x00001317, 0xff630313, 0x0062b023, 0x00400393, 0x00200e93, 0x030000ef,
    0x00200393, 0x028000ef, 0x00300e93, 0x020000ef, 0x00200e93, 0x00900393, 0x014000ef, 0x00100eb7,
    0x00005f37, 0x555f0f13, 0x01eea023, 0x0072a423, 0x01d2ac23, 0x01c2af03, 0x030f0f13, 0x01ee0023,
    0x00008067,
];

/// Has the probe write 8 bytes, and jumps to itself.
const WRITING: [u32; 9] = [
    0x100012b7, 0x00001317, 0x0062b023, 0x00800393, 0x0072a423, 0x0062b823, 0x00200393, 0x0072ac23,
    0x0000006f,
];

/// Stores at DATA, and jumps to itself.
const STORING: [u32; 3] = [0x100012b7, 0x0002b823, 0x0000006f];

/// Stores at DATA, loads it, and jumps to itself.
const STALLING: [u32; 4] = [0x100012b7, 0x0002b823, 0x0102b303, 0x0000006f];

#[test]
fn probes_serve_as_their_machine_says(rt: HostRuntime) -> Result<(), Fail> {
    // Each by the keys before and of the probe and the image, with what it comes to: a load overtakes no store; values go
    // to the harts that wait for them; what isn't granted is refused, and 9 bytes at once; the records of a service run
    // out; a store stalls behind another hart's; so does a load, which asks for no room.
    let rows: [(&str, &str, &[u32], u8, &str, &str, &[u8]); 6] = [
        (
            "",
            "",
            &POSTING,
            0,
            "B",
            "",
            b"TVJ1\x01\0\x06\0\0\0\x02\0\x02\0\x02\0\x07\0\x08\0\x0b\x40\0\0\0\x01\0\x06\0\0\0\0\x08\0\0\0",
        ),
        (
            "harts = 2",
            "mem = []\nirq = false",
            &LOADING,
            0,
            "13",
            "",
            b"TVJ1\x01\0\x06\0\0\0\x01\x01\x04\0\0\0\x02\0\x02\0\x07\0\x08\0\x02\0\x07\0\x08\0\x0b\x40\0\0\0\
            \x01\0\x40\0\0\0\x01\x01\x40\0\0\0\x0b\x40\0\0\0\x01\0\x05\0\0\0\0\x0e\0\0\0",
        ),
        (
            "",
            "mem = [{ base = 0x80000000, len = 4096 }]\nirq = false",
            &ASKING,
            0,
            "2122",
            "",
            b"TVJ1\x01\0\x0b\0\0\0\x02\0\x02\0\x02\0\x03\0\x04\0\x06\0\x02\0\x07\0\x08\0\x0b\x40\0\0\0\
            \x01\0\x08\0\0\0\x02\0\x02\0\x03\0\x04\0\x06\0\x02\0\x07\0\x08\0\x0b\x40\0\0\0\
            \x01\0\x08\0\0\0\x02\0\x02\0\x03\0\x05\0\x06\0\x02\0\x07\0\x08\0\x0b\x40\0\0\0\
            \x01\0\x09\0\0\0\x02\0\x02\0\x02\0\x07\0\x08\0\x0b\x40\0\0\0\x01\0\x07\0\0\0\0\x27\0\0\0",
        ),
        (
            "journal_entries = 7",
            "",
            &WRITING,
            7,
            "",
            "tv: journal full after 6 records\n",
            b"TVJ1\x01\0\x40\0\0\0\x02\0\x02\0\x02\0\x02\0\x03\0\x10\x01\0\x06\0\0\0",
        ),
        (
            "harts = 2\ntube = 1\nsteps = 130",
            "",
            &STORING,
            6,
            "",
            "tv: step limit 130\n",
            b"TVJ1\x01\0\x40\0\0\0\x01\x01\x01\0\0\0\x02\0\x0b\x40\0\0\0\x01\0\x40\0\0\0\x01\x01\x01\0\0\0\
            \0\x06\0\0\0",
        ),
        (
            "tube = 1\njournal_entries = 2",
            "",
            &STALLING,
            7,
            "",
            "tv: journal full after 2 records\n",
            b"TVJ1\x01\0\x02\0\0\0\x02\0\x10\x01\0\x02\0\0\0",
        ),
    ];
    for (keys, probe, words, status, out, line, journal) in rows {
        let text = format!(in rt.alloc();
            "image = 'image'\n{keys}\n[[device]]\nkind = 'probe'\n{probe}"
        )?;
        let image = image(&rt, words)?;
        let objects = with_machine(&rt, text.as_bytes(), &image)?;
        let words = ["solo", "--journal", "journal", "machine"];
        let answer = serve(&rt, &words, objects)?;
        expect(&rt, &answer, status, out, line);
        expect_journal(&rt, &answer, journal);
    }
    Ok(())
}

#[test]
fn puts_that_fail_leave_the_run(rt: HostRuntime) -> Result<(), Fail> {
    // Each by the put that fails of the output and of the journal's file, and the room of that file.
    for (put, file_put, room, status, out, line) in [
        (0, 9, 64, 5, "", "tv: cannot write\n"),
        (1, 9, 15, 0, OUTPUT, ""),
        (9, 0, 64, 5, OUTPUT, "tv: cannot write\n"),
        (9, 1, 64, 0, OUTPUT, ""),
        (9, 9, 14, 5, OUTPUT, "tv: cannot write\n"),
    ] {
        let file = sink(&rt, room, &[file_put])?;
        let store = store(&rt, with_image(&rt, &IMAGE)?, file, &[])?;
        let words = ["flat", "--journal", "journal", "image"];
        let (out_sink, err) = (sink(&rt, 64, &[put])?, sink(&rt, 64, &[])?);
        let answer = serve_over(&rt, &words, store, out_sink, err)?;
        expect(&rt, &answer, status, out, line);
        assert!(rt; answer.journal.is_some());
    }
    Ok(())
}

#[test]
fn lines_that_fail_to_go_out_end_with_5(rt: HostRuntime) -> Result<(), Fail> {
    let rows: [(&[&str], &str); 2] = [
        (&["check", "machine"], "ok"),
        (&["replay", "--flat", "image", "journal"], "le"),
    ];
    for (words, out) in rows {
        let objects = with_machine(&rt, b"image = 'image'", &IMAGE)?;
        let objects = with_file(&rt, objects, "journal", &JOURNAL)?;
        let store = store(&rt, objects, sink(&rt, 0, &[])?, &[])?;
        let answer = serve_over(&rt, words, store, sink(&rt, 2, &[])?, sink(&rt, 64, &[])?)?;
        expect(&rt, &answer, 5, out, "tv: cannot write\n");
    }
    Ok(())
}

#[test]
fn journals_are_replayed(rt: HostRuntime) -> Result<(), Fail> {
    let looping = image(&rt, &[0x0000006f])?;
    let failing = image(&rt, &[0x001002b7, 0x00073337, 0x33330313, 0x0062a023])?;
    // Each by its image and its journal's lines, on a machine of two harts and 70 events.
    let rows: [(&[u8], &[u8], u8, &str, &str); 12] = [
        (
            &IMAGE,
            b"\x01\x00\x07\0\0\0\x00\x01\0\0\0",
            0,
            "legal: 1 records, 7 events, status 0\n",
            "",
        ),
        (
            &IMAGE,
            b"\x01\x00\x06\0\0\0\x00\x01\0\0\0",
            0,
            "legal: 1 records, 6 events, status open\n",
            "",
        ),
        (
            &IMAGE,
            b"\x01\x00\x08\0\0\0\x00\x01\0\0\0",
            14,
            "",
            "tv: illegal entry 0\n",
        ),
        (
            &IMAGE,
            b"\x01\x00\x07\0\0\0\x00\x01\0\0",
            14,
            "",
            "tv: bad journal at byte 14\n",
        ),
        (
            &IMAGE,
            b"\x01\x00\x00\0\0\0\x00\x01\0\0\0",
            14,
            "",
            "tv: bad journal at byte 9\n",
        ),
        (
            &failing,
            b"\x01\x00\x04\0\0\0\x00\x01\0\0\0",
            0,
            "legal: 1 records, 4 events, status 1\n",
            "",
        ),
        (
            &looping,
            b"\x01\x00\x40\0\0\0\x0b\x40\0\0\0\x01\x01\x06\0\0\0\x00\x03\0\0\0",
            0,
            "legal: 3 records, 71 events, status 6\n",
            "",
        ),
        (
            &looping,
            b"\x01\x01\x03\0\0\0\x01\x00\x02\0\0\0\x10\x01\x00\x02\0\0\0",
            0,
            "legal: 2 records, 5 events, status 7\n",
            "",
        ),
        (
            &looping,
            b"\x10\x02\x0b\x01\0\0\0\x00\x01\0\0\0",
            14,
            "",
            "tv: illegal entry 0\n",
        ),
        (
            &looping,
            b"\x0b\x01\0\0\0\x10\x02\x00\x01\0\0\0",
            0,
            "legal: 1 records, 1 events, status 5\n",
            "",
        ),
        (
            &looping,
            b"\x01\x00\x01\0\0\0\x0b\x01\0\0\0\x0b\x01\0\0\0\x00\x03\0\0\0",
            14,
            "",
            "tv: illegal entry 2\n",
        ),
        (
            &looping,
            b"\x01\x00\x01\0\0\0\x01\x02\x01\0\0\0\x00\x02\0\0\0",
            14,
            "",
            "tv: illegal entry 1\n",
        ),
    ];
    for (image, lines, status, out, line) in rows {
        let mut journal = Vec::from_slice(rt.alloc(), b"TVJ1")?;
        journal.extend_from_slice(lines)?;
        let objects = with_machine(&rt, b"image = 'image'\nharts = 2\nsteps = 70", image)?;
        let objects = with_file(&rt, objects, "journal", &journal)?;
        let answer = serve(&rt, &["replay", "machine", "journal"], objects)?;
        expect(&rt, &answer, status, out, line);
    }
    Ok(())
}

#[test]
fn runs_stop_at_the_limit_of_an_option(rt: HostRuntime) -> Result<(), Fail> {
    // Each by the low byte of its word, a jump to itself or none, and the limit.
    for (word, option, line, events) in [
        (0x6f, "--steps=10", "tv: step limit 10\n", Some(10)),
        (0x00, "--steps=3", "tv: step limit 3\n", Some(3)),
        (0x6f, "--steps=1000001", "tv: step limit 1000001\n", None),
    ] {
        let words = ["flat", option, "image"];
        let answer = serve(&rt, &words, with_image(&rt, &[word, 0, 0, 0])?)?;
        expect(&rt, &answer, 6, "", line);
        if let Some(events) = events {
            let mut file = JOURNAL;
            file[6] = events;
            expect_journal(&rt, &answer, &file);
        }
    }
    Ok(())
}

#[test]
fn a_line_that_is_longer_than_a_piece_goes_out_whole(rt: HostRuntime) -> Result<(), Fail> {
    let mut name = String::new(rt.alloc());
    for _ in 0..5000 {
        name.push('a')?;
    }
    let words = ["check", name.as_str()];
    let (out, err) = (sink(&rt, 0, &[])?, sink(&rt, 6000, &[])?);
    let store = store(&rt, Objects::new(rt.alloc()), sink(&rt, 0, &[])?, &[])?;
    let answer = serve_over(&rt, &words, store, out, err)?;
    let line = format!(in rt.alloc(); "tv: cannot read {}\n", name.as_str())?;
    expect(&rt, &answer, 4, "", line.as_str());
    Ok(())
}
