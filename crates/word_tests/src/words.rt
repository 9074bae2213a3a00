// Words with a form and without.
use command_words::{CommandLine, read_words};
use std::alloc::{AllocError, Global};
use text_atoms::TextList;

/// The words of a line, none where it is empty.
fn words_of(alloc: Global, line: &str) -> Result<Vec<String>, AllocError> {
    let mut words = Vec::new(alloc);
    for word in line.split_whitespace() {
        words.push(String::from_str(alloc, word)?)?;
    }
    Ok(words)
}

/// Adds the texts, each behind a bar.
fn add_texts(shown: &mut String, texts: &TextList) -> Result<(), AllocError> {
    for text in texts.as_slice() {
        shown.push('|')?;
        shown.push_str(text.as_str())?;
    }
    Ok(())
}

/// What is asked for, with its texts at the end.
fn shown(alloc: Global, asked: &CommandLine<'_>) -> Result<String, AllocError> {
    let texts = asked.extra_texts(alloc)?;
    let mut shown = format!(in alloc;
        "{:?} {:?} {} {}",
        asked.command, asked.page, asked.limit, asked.fresh
    )?;
    add_texts(&mut shown, &texts)?;
    Ok(shown)
}

/// Whether the words of a line ask for this.
fn ask_for(alloc: Global, line: &str, wanted: &str) -> Result<bool, AllocError> {
    let words = words_of(alloc, line)?;
    match read_words(words.as_slice()) {
        Some(asked) => Ok(shown(alloc, &asked)?.as_str() == wanted),
        None => Ok(false),
    }
}

#[test]
fn words_with_a_form(rt: HostRuntime) -> Result<(), AllocError> {
    let rows = [
        (
            "list 1 f",
            "List { size: Size { nodes: 1 }, file: \"f\" } None 100000 1",
        ),
        (
            "list 1 max=1",
            "List { size: Size { nodes: 1 }, file: \"max=1\" } None 100000 1",
        ),
        (
            "list 64 f max=1000000000 states=1000000 fresh=3 text=u text=",
            "List { size: Size { nodes: 64 }, file: \"f\" } Some(1000000000) 1000000 3|u|",
        ),
        (
            "resume 2 f c max=1 states=1 text=1 text=2 text=3 text=4 text=5 text=6 text=7 text=8",
            "Resume { size: Size { nodes: 2 }, file: \"f\", cursor: \"c\" } Some(1) 1 1|1|2|3|4|5|6|7|8",
        ),
        (
            "universe f fresh=2 text=",
            "Universe { file: \"f\" } None 100000 2|",
        ),
        (
            "states 3 f states=7",
            "States { size: Size { nodes: 3 }, file: \"f\" } None 7 1",
        ),
        (
            "seeded 4294967295 1 max=9",
            "Seeded { number: 4294967295, size: Size { nodes: 1 } } Some(9) 100000 1",
        ),
    ];
    for (line, wanted) in rows {
        assert!(rt; ask_for(rt.alloc(), line, wanted)?, "{line}");
    }
    Ok(())
}

#[test]
fn words_without_a_form(rt: HostRuntime) -> Result<(), AllocError> {
    let lines = [
        "",
        "list 1",
        "List 1 f",
        "list 0 f",
        "list 65 f",
        "list 01 f",
        "list +1 f",
        "list 1 f g",
        "list 1 f max=0",
        "list 1 f max=1000000001",
        "list 1 f max=",
        "list 1 f max=1 max=1",
        "list 1 f states=2 max=1",
        "list 1 f states=0",
        "list 1 f states=1000001",
        "list 1 f fresh=0",
        "list 1 f fresh=4",
        "list 1 f text=u fresh=1",
        "list 1 f text=\u{1}",
        "list 1 f text=1 text=2 text=3 text=4 text=5 text=6 text=7 text=8 text=9",
        "resume 1 f",
        "universe f max=1",
        "universe f states=2",
        "states 3 f max=1",
        "seeded 4294967296 1",
        "represent f d",
    ];
    for line in lines {
        let words = words_of(rt.alloc(), line)?;
        assert!(rt; read_words(words.as_slice()).is_none(), "{line}");
    }
    Ok(())
}

/// Whether a text so many times over, and one more character, is taken by the word `text=` and the text.
fn is_taken(alloc: Global, text: &str, times: usize, more: &str) -> Result<bool, AllocError> {
    let repeated = text.repeat(alloc, times)?;
    let word = format!(in alloc; "text={repeated}{more}")?;
    let mut words = words_of(alloc, "universe f")?;
    words.push(word)?;
    Ok(read_words(words.as_slice()).is_some())
}

#[test]
fn texts(rt: HostRuntime) -> Result<(), AllocError> {
    let rows = [
        (" \t\r\n", 1, "", true),
        ("\u{D7FF}\u{E000}\u{FFFD}\u{10FFFF}", 1, "", true),
        ("é", 2048, "", true),
        ("é", 2048, "u", false),
        ("\u{B}", 1, "", false),
        ("\u{FFFE}", 1, "", false),
    ];
    for (text, times, more, taken) in rows {
        assert!(rt;
            is_taken(rt.alloc(), text, times, more)? == taken,
            "{text:?} {more}"
        );
    }
    Ok(())
}

/// Whether the file and the one text are asked for.
fn has_parts(asked: &CommandLine<'_>, file: &str, text: &str) -> bool {
    asked.command.file() == Some(file)
        && !asked.texts.is_empty()
        && asked.texts.len() == 1
        && asked.texts.get(0) == text
}

#[test]
fn parts(rt: HostRuntime) -> Result<(), AllocError> {
    let words = words_of(rt.alloc(), "universe f text=u")?;
    let asked = read_words(words.as_slice());
    assert!(rt; asked.is_some_and(|asked| has_parts(&asked, "f", "u")));
    Ok(())
}
