//! Pictures of runs: that each is one whole document, and that of the longest file. Where shapes stand
//! in pictures, and how many there are, is data of `svsim_examples`.
use crate::asserting::assert_of;
use crate::samples::{DEEP_RUN, FRAME_USED_AGAIN, SHOOTDOWN};
use draw::draw_text;
use files::read_run;
use std::alloc::Global;
use std::test::Fail;

/// How often a text has these words.
fn count(text: &str, words: &str) -> usize {
    text.split(words).count().saturating_sub(1)
}

/// The picture of a file for `run`.
fn picture(alloc: Global, file: &str) -> Result<String, Fail> {
    let Ok(scenario) = read_run(alloc, file) else {
        return Err(Fail::from("the file is not read"));
    };
    match draw_text(alloc, &scenario) {
        Ok(svg) => Ok(svg),
        Err(_) => Err(Fail::from("no picture")),
    }
}

/// Whether the elements of a picture are closed: each text, and each of the few others that hold
/// something.
fn is_balanced(svg: &str) -> bool {
    let texts = count(svg, "<text ") == count(svg, "</text>");
    let mut empty: usize = 0;
    for shape in ["<rect ", "<line ", "<path ", "<circle "] {
        empty = empty.saturating_add(count(svg, shape));
    }
    let pattern = count(svg, "<pattern ") == 1 && count(svg, "</pattern>") == 1;
    texts && empty == count(svg, "/>") && pattern
}

/// One element that is closed, whose references all lead to its own pattern.
#[test]
fn whole_documents(rt: HostRuntime) -> Result<(), Fail> {
    for file in ["", SHOOTDOWN, DEEP_RUN, FRAME_USED_AGAIN] {
        let svg = picture(rt.alloc(), file)?;
        let svg = svg.as_str();
        assert_of(
            &rt,
            file,
            svg.starts_with("<svg xmlns='http://www.w3.org/2000/svg' "),
        );
        assert_of(&rt, file, svg.ends_with("</svg>\n"));
        assert_of(
            &rt,
            file,
            count(svg, "<svg ") == 1 && count(svg, "</svg>") == 1,
        );
        assert_of(&rt, file, is_balanced(svg));
        assert_of(&rt, file, count(svg, "url(") == count(svg, "url(#hatch)"));
    }
    Ok(())
}

#[test]
fn longest_file(rt: HostRuntime) -> Result<(), Fail> {
    let mut file = String::from_str(rt.alloc(), "steps = [\n")?;
    for _ in 0..65_536_u32 {
        file.push_str("'0 fence x0 x0',\n")?;
    }
    file.push_str("]\n")?;
    let svg = picture(rt.alloc(), file.as_str())?;
    assert!(rt; count(svg.as_str(), "<text class='number'") == 65_536);
    assert!(rt; count(svg.as_str(), ">fence x0 x0: ok</text>") == 65_536);
    Ok(())
}
