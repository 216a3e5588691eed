//! Texts that are read and written again, and texts that are refused; the line of each refusal was worked out by hand.

use std::alloc::Global;
use ts_automaton::{AutoStop, Automaton, Direction, read, write, write_head};
use ts_base::Memory;

/// The first is the automaton that adds up the widths of peaks.
static TAKEN: [&str; 7] = [
    "forward\nstate s free\nstate r free\nstate t held\nstart 0 0 0\nmove s < r ; C ; D ; R\nmove s = s ; C ; D ; R\nmove s > s ; C ; D ; R\nmove r < r ; C ; add D 1 ; R\nmove r = r ; C ; add D 1 ; R\nmove r > t ; add D 1 ; 0 ; R\nmove t < r ; 0 ; 0 ; add R C\nmove t = t ; C ; add D 1 ; R\nmove t > t ; add C add D 1 ; 0 ; R\nfinish add R C same\nend\n",
    "reverse\nstate s free\nstart -inf +inf 1\nmove s < s ; max min x y C ; y ; add R 1\nmove s = s ; max max max max max max max C C C C C C C C ; D ; R\nmove s > s ; C ; min D x ; 0\nfinish max C R zero\nend\n",
    "reverse\nstate b free\nstate a held\nstart +inf 0 0\nmove b < a ; min C x ; 0 ; R\nmove b = b ; C ; D ; R\nmove b > b ; +inf ; D ; R\nmove a < b ; C ; D ; R\nmove a = b ; +inf ; D ; R\nmove a > a ; x ; D ; R\nfinish min C R cells\nend\n",
    "forward\nstate b free\nstate a held\nstart -inf 0 0\nmove b < a ; max C x ; 0 ; R\nmove b = a ; max y C ; 0 ; R\nmove b > b ; max C C ; D ; R\nmove a < b ; C ; D ; R\nmove a = b ; -inf ; D ; R\nmove a > a ; x ; D ; R\nfinish max C R zero\nend\n",
    // wide ones
    "forward wide\nstate s free\nstart 0 0 -inf +inf 0\nmove s < s ; C ; E ; D ; F ; R\nmove s = s ; C ; E ; D ; F ; R\nmove s > s ; C ; E ; -inf ; +inf ; add R sub max max D x y min min F x y\nfinish add R sub C E same\nend\n",
    "reverse wide\nstate s free\nstate r held\nstart -inf 0 -inf +inf -inf\nmove s < s ; C ; E ; D ; F ; R\nmove s = s ; C ; E ; D ; F ; R\nmove s > r ; max max D x y ; min min F x y ; -inf ; +inf ; R\nmove r < s ; -inf ; 0 ; -inf ; +inf ; max R sub C E\nmove r = s ; -inf ; 0 ; -inf ; +inf ; max R sub C E\nmove r > r ; max C max D y ; min E min F y ; -inf ; +inf ; R\nfinish max R sub C E same\nend\n",
    // a difference of each pair of kinds that it takes
    "forward wide\nstate s free\nstart -inf +inf 0 1 0\nmove s < s ; sub C D ; sub E F ; sub x y ; F ; R\nmove s = s ; C ; E ; D ; F ; R\nmove s > s ; C ; E ; D ; F ; R\nfinish sub C R same\nend\n",
];

/// The stop, its line, and after a colon the text.
static REFUSED: [&str; 72] = [
    // nothing
    "text 1:",
    // head lines
    "text 1:forward",
    "text 2:forward\n",
    "text 1:backward\n",
    "text 1: forward\n",
    "text 1:forward reverse\n",
    "text 1:forward\r\nstate s free\n",
    // state lines
    "text 2:forward\nend\n",
    "text 2:forward\nstart 0 0 0\n",
    "text 2:forward\n\nstate s free\n",
    "text 2:forward\nstate S free\n",
    "text 2:forward\nstate st free\n",
    "text 2:forward\nstate s idle\n",
    "text 2:forward\nstate  s free\n",
    "text 2:forward\nstate\ts free\n",
    "text 2:forward\nstate s free \n",
    // two states of one name, nine states
    "text 3:forward\nstate s free\nstate s held\nstart 0 0 0\nmove s < s ; C ; D ; R\nmove s = s ; C ; D ; R\nmove s > s ; C ; D ; R\nfinish R same\nend\n",
    "text 10:forward\nstate a free\nstate b free\nstate c free\nstate d free\nstate e free\nstate f free\nstate g free\nstate h free\nstate i free\nstart 0 0 0\nmove s < s ; C ; D ; R\nmove s = s ; C ; D ; R\nmove s > s ; C ; D ; R\nfinish R same\nend\n",
    // start lines
    "text 3:forward\nstate s free\nstart 2 0 0\nmove s < s ; C ; D ; R\nmove s = s ; C ; D ; R\nmove s > s ; C ; D ; R\nfinish R same\nend\n",
    "text 3:forward\nstate s free\nstart 0 0\nmove s < s ; C ; D ; R\nmove s = s ; C ; D ; R\nmove s > s ; C ; D ; R\nfinish R same\nend\n",
    "text 3:forward\nstate s free\nstart 0 0 0 0\nmove s < s ; C ; D ; R\nmove s = s ; C ; D ; R\nmove s > s ; C ; D ; R\nfinish R same\nend\n",
    "text 3:forward\nstate s free\nstart 00 0 0\nmove s < s ; C ; D ; R\nmove s = s ; C ; D ; R\nmove s > s ; C ; D ; R\nfinish R same\nend\n",
    "text 3:forward\nstate s free\nstart inf 0 0\nmove s < s ; C ; D ; R\nmove s = s ; C ; D ; R\nmove s > s ; C ; D ; R\nfinish R same\nend\n",
    // heads of moves
    "text 4:forward\nstate s free\nstart 0 0 0\nmove s = s ; C ; D ; R\nmove s < s ; C ; D ; R\nmove s > s ; C ; D ; R\nfinish R same\nend\n",
    "text 5:forward\nstate s free\nstate r free\nstart 0 0 0\nmove r < s ; C ; D ; R\nmove s = s ; C ; D ; R\nmove s > s ; C ; D ; R\nfinish R same\nend\n",
    // an unknown name after the sign
    "text 4:forward\nstate s free\nstart 0 0 0\nmove s < r ; C ; D ; R\nmove s = s ; C ; D ; R\nmove s > s ; C ; D ; R\nfinish R same\nend\n",
    "text 5:forward\nstate s free\nstart 0 0 0\nmove s < s ; C ; D ; R\nmove s = ; C ; D ; R\nmove s > s ; C ; D ; R\nfinish R same\nend\n",
    // expressions of moves
    "text 4:forward\nstate s free\nstart 0 0 0\nmove s < s ; C ; D\nmove s = s ; C ; D ; R\nmove s > s ; C ; D ; R\nfinish R same\nend\n",
    "text 4:forward\nstate s free\nstart 0 0 0\nmove s < s ; C D ; R\nmove s = s ; C ; D ; R\nmove s > s ; C ; D ; R\nfinish R same\nend\n",
    "text 4:forward\nstate s free\nstart 0 0 0\nmove s < s C ; D ; R\nmove s = s ; C ; D ; R\nmove s > s ; C ; D ; R\nfinish R same\nend\n",
    "text 4:forward\nstate s free\nstart 0 0 0\nmove s < s ; C ; D ; R ; R\nmove s = s ; C ; D ; R\nmove s > s ; C ; D ; R\nfinish R same\nend\n",
    "text 4:forward\nstate s free\nstart 0 0 0\nmove s < s ; C ; D ; R R\nmove s = s ; C ; D ; R\nmove s > s ; C ; D ; R\nfinish R same\nend\n",
    "text 6:forward\nstate s free\nstart 0 0 0\nmove s < s ; C ; D ; R\nmove s = s ; C ; D ; R\nmove s > s ; add x ; D ; R\nfinish R same\nend\n",
    "text 6:forward\nstate s free\nstart 0 0 0\nmove s < s ; C ; D ; R\nmove s = s ; C ; D ; R\nmove s > s ; ; D ; R\nfinish R same\nend\n",
    "text 6:forward\nstate s free\nstart 0 0 0\nmove s < s ; C ; D ; R\nmove s = s ; C ; D ; R\nmove s > s ; C ; D ; c\nfinish R same\nend\n",
    // sixteen and seventeen words
    "text 5:forward\nstate s free\nstart 0 0 0\nmove s < s ; C ; D ; R\nmove s = s ; add add add add add add add C C C C C C C C C ; D ; R\nmove s > s ; C ; D ; R\nfinish R same\nend\n",
    "text 5:forward\nstate s free\nstart 0 0 0\nmove s < s ; C ; D ; R\nmove s = s ; add add add add add add add add C C C C C C C C C ; D ; R\nmove s > s ; C ; D ; R\nfinish R same\nend\n",
    // a fourth move, finish lines
    "text 7:forward\nstate s free\nstart 0 0 0\nmove s < s ; C ; D ; R\nmove s = s ; C ; D ; R\nmove s > s ; C ; D ; R\nmove s < s ; C ; D ; R\nfinish R same\nend\n",
    "text 6:forward\nstate s free\nstart 0 0 0\nmove s < s ; C ; D ; R\nmove s = s ; C ; D ; R\nfinish R same\nend\n",
    "text 7:forward\nstate s free\nstart 0 0 0\nmove s < s ; C ; D ; R\nmove s = s ; C ; D ; R\nmove s > s ; C ; D ; R\nfinish add R same\nend\n",
    "text 7:forward\nstate s free\nstart 0 0 0\nmove s < s ; C ; D ; R\nmove s = s ; C ; D ; R\nmove s > s ; C ; D ; R\nfinish R\nend\n",
    "text 7:forward\nstate s free\nstart 0 0 0\nmove s < s ; C ; D ; R\nmove s = s ; C ; D ; R\nmove s > s ; C ; D ; R\nfinish R zero same\nend\n",
    "text 15:forward\nstate s free\nstate r free\nstate t held\nstart 0 0 0\nmove s < r ; C ; D ; R\nmove s = s ; C ; D ; R\nmove s > s ; C ; D ; R\nmove r < r ; C ; add D 1 ; R\nmove r = r ; C ; add D 1 ; R\nmove r > t ; add D 1 ; 0 ; R\nmove t < r ; 0 ; 0 ; add R C\nmove t = t ; C ; add D 1 ; R\nmove t > t ; add C add D 1 ; 0 ; R\nfinish add R same\nend\n",
    // the end
    "text 8:forward\nstate s free\nstart 0 0 0\nmove s < s ; C ; D ; R\nmove s = s ; C ; D ; R\nmove s > s ; C ; D ; R\nfinish R same\n",
    "text 8:forward\nstate s free\nstart 0 0 0\nmove s < s ; C ; D ; R\nmove s = s ; C ; D ; R\nmove s > s ; C ; D ; R\nfinish R same\nend",
    "text 9:forward\nstate s free\nstart 0 0 0\nmove s < s ; C ; D ; R\nmove s = s ; C ; D ; R\nmove s > s ; C ; D ; R\nfinish R same\nend\nend\n",
    "text 9:forward\nstate s free\nstart 0 0 0\nmove s < s ; C ; D ; R\nmove s = s ; C ; D ; R\nmove s > s ; C ; D ; R\nfinish R same\nend\n\n",
    // the first state is held
    "typing 2:forward\nstate s held\nstart 0 0 0\nmove s < s ; C ; D ; R\nmove s = s ; C ; D ; R\nmove s > s ; C ; D ; R\nfinish R same\nend\n",
    // what depends on a start constant
    "typing 9:forward\nstate s free\nstate r free\nstate t held\nstart 0 -inf 0\nmove s < r ; C ; D ; R\nmove s = s ; C ; D ; R\nmove s > s ; C ; D ; R\nmove r < r ; C ; add D 1 ; R\nmove r = r ; C ; add D 1 ; R\nmove r > t ; add D 1 ; 0 ; R\nmove t < r ; 0 ; 0 ; add R C\nmove t = t ; C ; add D 1 ; R\nmove t > t ; add C add D 1 ; 0 ; R\nfinish add R C same\nend\n",
    // a kind that the operator does not take, or the register
    "typing 5:forward\nstate s free\nstart +inf 0 0\nmove s < s ; C ; D ; R\nmove s = s ; add C D ; D ; R\nmove s > s ; C ; D ; R\nfinish R same\nend\n",
    "typing 6:forward\nstate s free\nstart -inf 0 0\nmove s < s ; C ; D ; R\nmove s = s ; C ; D ; R\nmove s > s ; min C x ; D ; R\nfinish R same\nend\n",
    "typing 4:forward\nstate s free\nstart 0 0 0\nmove s < s ; C ; -inf ; R\nmove s = s ; C ; D ; R\nmove s > s ; C ; D ; R\nfinish R same\nend\n",
    "typing 11:forward\nstate s free\nstate r free\nstate t held\nstart -inf 0 0\nmove s < r ; C ; D ; R\nmove s = s ; C ; D ; R\nmove s > s ; C ; D ; R\nmove r < r ; C ; add D 1 ; R\nmove r = r ; C ; add D 1 ; R\nmove r > t ; C ; 0 ; R\nmove t < r ; 0 ; 0 ; add R C\nmove t = t ; C ; add D 1 ; R\nmove t > t ; add C add D 1 ; 0 ; R\nfinish add R C same\nend\n",
    "typing 4:forward\nstate s free\nstart +inf 0 0\nmove s < s ; max C x ; D ; R\nmove s = s ; C ; D ; R\nmove s > s ; C ; D ; R\nfinish R same\nend\n",
    // cells and kinds in the finish line
    "typing 7:forward\nstate s free\nstart 0 0 0\nmove s < s ; C ; D ; R\nmove s = s ; C ; D ; R\nmove s > s ; C ; D ; R\nfinish x same\nend\n",
    "typing 7:forward\nstate s free\nstart 0 0 0\nmove s < s ; C ; D ; R\nmove s = s ; C ; D ; R\nmove s > s ; C ; D ; R\nfinish add R y same\nend\n",
    "typing 7:forward\nstate s free\nstart +inf 0 -inf\nmove s < s ; C ; D ; R\nmove s = s ; C ; D ; R\nmove s > s ; C ; D ; R\nfinish max R C zero\nend\n",
    // the grammar comes before the typing
    "text 7:forward\nstate s held\nstart 0 0 0\nmove s < s ; C ; D ; R\nmove s = s ; C ; D ; R\nmove s > s ; C ; D ; R\nfinish same\nend\n",
    // heads of wide blocks
    "text 1:wide forward\nstate s free\n",
    "text 1:forward  wide\nstate s free\n",
    "text 1:forward wide wide\nstate s free\n",
    "text 1:forward narrow\nstate s free\n",
    // as many constants and expressions as the block has registers
    "text 3:forward wide\nstate s free\nstart 0 0 0\nmove s < s ; C ; E ; D ; F ; R\nmove s = s ; C ; E ; D ; F ; R\nmove s > s ; C ; E ; D ; F ; R\nfinish R same\nend\n",
    "text 3:forward\nstate s free\nstart 0 0 0 0 0\nmove s < s ; C ; D ; R\nmove s = s ; C ; D ; R\nmove s > s ; C ; D ; R\nfinish R same\nend\n",
    "text 4:forward wide\nstate s free\nstart 0 0 0 0 0\nmove s < s ; C ; D ; R\nmove s = s ; C ; D ; R\nmove s > s ; C ; D ; R\nfinish R same\nend\n",
    "text 4:forward\nstate s free\nstart 0 0 0\nmove s < s ; C ; E ; D ; F ; R\nmove s = s ; C ; E ; D ; F ; R\nmove s > s ; C ; E ; D ; F ; R\nfinish R same\nend\n",
    // E, F and sub in a narrow block
    "text 5:forward\nstate s free\nstart 0 0 0\nmove s < s ; C ; D ; R\nmove s = s ; E ; D ; R\nmove s > s ; C ; D ; R\nfinish R same\nend\n",
    "text 6:forward\nstate s free\nstart 0 0 0\nmove s < s ; C ; D ; R\nmove s = s ; C ; D ; R\nmove s > s ; C ; max D F ; R\nfinish R same\nend\n",
    "text 7:forward\nstate s free\nstart 0 0 0\nmove s < s ; C ; D ; R\nmove s = s ; C ; D ; R\nmove s > s ; C ; D ; R\nfinish sub R C same\nend\n",
    // sixteen words with a difference
    "text 4:forward wide\nstate s free\nstart 0 0 0 0 0\nmove s < s ; sub sub sub sub sub sub sub sub C C C C C C C C ; E ; D ; F ; R\nmove s = s ; C ; E ; D ; F ; R\nmove s > s ; C ; E ; D ; F ; R\nfinish R same\nend\n",
    // a difference of kinds that it does not take: Int and Low, High and Low
    "typing 7:forward wide\nstate s free\nstart -inf 0 0 0 0\nmove s < s ; C ; E ; D ; F ; R\nmove s = s ; C ; E ; D ; F ; R\nmove s > s ; C ; E ; D ; F ; R\nfinish sub R C same\nend\n",
    "typing 7:forward wide\nstate s free\nstart -inf 0 0 0 +inf\nmove s < s ; C ; E ; D ; F ; R\nmove s = s ; C ; E ; D ; F ; R\nmove s > s ; C ; E ; D ; F ; R\nfinish sub R C same\nend\n",
];

// The tables behind functions, so that the proofs of the tests don't read them.
fn taken_texts() -> &'static [&'static str] {
    &TAKEN
}

fn refused_rows() -> &'static [&'static str] {
    &REFUSED
}

/// The text of an automaton.
pub(crate) fn written(
    alloc: Global,
    direction: Direction,
    automaton: &Automaton,
) -> Result<Vec<u8>, Memory> {
    let mut text = Vec::new(alloc);
    write_head(direction, automaton.wide(), &mut text)?;
    write(automaton, &mut text)?;
    Ok(text)
}

/// Whether a text is read, and written again as it was.
fn is_taken(alloc: Global, text: &str) -> Result<bool, Memory> {
    let direction = if text.starts_with("forward") {
        Direction::Forward
    } else {
        Direction::Reverse
    };
    match read(alloc, text.as_bytes()) {
        Ok(automaton) => Ok(written(alloc, direction, &automaton)?.as_slice() == text.as_bytes()),
        Err(_) => Ok(false),
    }
}

#[test]
fn what_was_written_is_read(rt: HostRuntime) {
    for text in taken_texts() {
        assert!(rt; is_taken(rt.alloc(), text) == Ok(true), "{text}");
    }
}

/// The stop that the head of a row names.
fn stop_of(head: &str) -> Option<AutoStop> {
    let (stop, line) = head.split_once(' ')?;
    let line = line.parse::<u32>().ok()?;
    Some(if stop == "text" {
        AutoStop::Text(line)
    } else {
        AutoStop::Typing(line)
    })
}

fn is_refused(alloc: Global, row: &str) -> bool {
    match row.split_once(':') {
        Some((head, text)) => {
            let found = read(alloc, text.as_bytes()).err();
            found.is_some() && found == stop_of(head)
        }
        None => false,
    }
}

#[test]
fn the_first_bad_line_is_told(rt: HostRuntime) {
    for row in refused_rows() {
        assert!(rt; is_refused(rt.alloc(), row), "{row}");
    }
}
