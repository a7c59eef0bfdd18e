//! What codes mean, in words.
use code_words::{cause, cause_within_reach, refusal};
use std::test::Fail;

#[test]
fn codes_have_words(rt: HostRuntime) {
    let far = Some("the cells of this channel and the one before it do not meet");
    assert!(rt; cause(510) == far);
    assert!(rt; cause(516).is_none() && cause(550).is_none());
    let had = Some("the net has had this wire before, and no branch begins here");
    assert!(rt; cause_within_reach(805) == had);
    assert!(rt; cause_within_reach(803) == cause(803));
    assert!(rt; refusal(10) == Some("a group of hints ends, and no clause was false"));
    assert!(rt; refusal(11).is_none());
}

#[test]
fn codes_of_one_file_have_different_words(rt: HostRuntime) -> Result<(), Fail> {
    for first in 101u32..900 {
        let words = cause(first);
        for second in first + 1..first / 100 * 100 + 100 {
            assert!(rt; words.is_none() || words != cause(second));
        }
    }
    Ok(())
}
