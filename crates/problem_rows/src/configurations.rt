//! Each call of a configuration once, and the cases at which it turns.
ghost use Rattle.std.specs.Prelude.{◌<◌};

use re_labels::{Config, LabelSet, MAX_LABELS};

// Whether the labels are in order, and the copy, the support and an image are those of `A C C`.
fn is_configuration() -> bool {
    let config = Config::from_labels(&[2, 0, 2]);
    config.labels() == [0, 2, 2].as_slice()
        && config.copy() == config
        && config.support() == LabelSet::single(0).insert(2)
        && config.image(&[7, 9, 3]).labels() == [3, 3, 7].as_slice()
}

#[test]
fn labels(rt: HostRuntime) {
    assert!(rt; is_configuration());
}

// Whether one of these labels, replaced by the other one, gives these, or nothing where they are none.
fn is_replaced(config: &Config, old: u8, new: u8, want: &[u8]) -> bool
    requires { new < MAX_LABELS }
{
    match config.replace_one(old, new) {
        Some(found) => found.labels() == want,
        None => want.is_empty(),
    }
}

fn are_replaced() -> bool {
    let config = Config::from_labels(&[2, 0, 2]);
    let one = Config::from_labels(&[0, 1, 2]);
    is_replaced(&config, 1, 5, &[])
        && is_replaced(&config, 2, 1, &[0, 1, 2])
        && is_replaced(&config, 0, 63, &[2, 2, 63])
        && is_replaced(&one, 0, 63, &[1, 2, 63])
}

#[test]
fn other_labels(rt: HostRuntime) {
    assert!(rt; are_replaced());
}

#[test]
fn order(rt: HostRuntime) {
    let one = Config::from_labels(&[0, 1, 2]);
    let config = Config::from_labels(&[0, 2, 2]);
    let last = Config::from_labels(&[1, 2, 63]);
    assert!(rt; one < config && config < last && one.copy() == one);
}
