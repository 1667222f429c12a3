//! The lines of witnesses.
ghost use Rattle.re_why.specs.WitnessTexts.{around, config_count, config_text_of, count_text, fit_text, foreign_set_text, label_after, label_text_of, missing_row_text, missing_set_text, set_text_of, bad_row_text, bad_sets_text, degrees_text, extends_text, lost_active_text, lost_choice_text, lost_passive_text, lost_row_text, no_fit_text, order_text, renaming_text, shut_sets_text, twice_text, witness_text};
ghost use Rattle.std.specs.Prelude.{◌≡◌, ◌++◌, OnOk, codes};

use crate::pieces::{
    push_choice, push_config_of, push_count, push_label_of, push_number, push_place, push_row_of,
    push_set_of, push_sets,
};
use crate::witness::{PortSets, Witness};
use re_frame::push_words;
use re_labels::{Config, LabelSet, Names, NoMemory, PortLabels, Row, Side};
use re_problem::MapVerdict;

// Two of these, one behind the other, that don't ascend.
fn push_order(text: &mut Vec<u8>, words: &str, place: usize) -> Result<(), NoMemory>
    ensures { OnOk result (text.new.items ≡ text.old.items ++ order_text words.now place) }
{
    push_place(text, words, place)?;
    push_words(text, " and ")?;
    push_number(text, place as u128 + 2)?;
    push_words(text, " are not ascending")
}

fn push_degrees(
    text: &mut Vec<u8>,
    before: usize,
    next: usize,
    active: u8,
    passive: u8,
) -> Result<(), NoMemory>
    ensures { OnOk result (text.new.items ≡ text.old.items ++ degrees_text before next active passive) }
{
    push_count(text, "problem ", next)?;
    push_count(text, " has the degrees ", active as usize)?;
    push_count(text, " and ", passive as usize)?;
    push_count(text, ", which are not those of problem ", before)?;
    push_words(text, " exchanged")
}

fn push_bad_row(
    text: &mut Vec<u8>,
    names: &Names,
    row: usize,
    labels: &PortLabels,
) -> Result<(), NoMemory>
    ensures { OnOk result (text.new.items ≡ text.old.items ++ bad_row_text names.now row labels.now) }
{
    push_place(text, "row ", row)?;
    push_words(text, " is not good: ")?;
    push_choice(text, names, labels.labels())?;
    push_words(text, " is no passive configuration")
}

fn push_extends(
    text: &mut Vec<u8>,
    names: &Names,
    row: usize,
    place: usize,
    label: u8,
) -> Result<(), NoMemory>
    ensures { OnOk result (text.new.items ≡ text.old.items ++ extends_text names.now row place label) }
{
    push_place(text, "row ", row)?;
    push_words(text, " is not maximal: ")?;
    push_label_of(text, names, label)?;
    push_place(text, " can be added to its set ", place)
}

// Words, a set, and words.
fn push_around(
    text: &mut Vec<u8>,
    names: &Names,
    words: &str,
    set: LabelSet,
    more: &str,
) -> Result<(), NoMemory>
    ensures { OnOk result (text.new.items ≡ text.old.items ++ around words.now (set_text_of names.now set) more.now) }
{
    push_words(text, words)?;
    push_set_of(text, names, set)?;
    push_words(text, more)
}

// Words, a label, and words.
fn push_named(
    text: &mut Vec<u8>,
    names: &Names,
    words: &str,
    label: u8,
    more: &str,
) -> Result<(), NoMemory>
    ensures { OnOk result (text.new.items ≡ text.old.items ++ around words.now (label_text_of names.now label) more.now) }
{
    push_words(text, words)?;
    push_label_of(text, names, label)?;
    push_words(text, more)
}

// Words, a configuration, and words.
fn push_between(
    text: &mut Vec<u8>,
    names: &Names,
    words: &str,
    config: &Config,
    more: &str,
) -> Result<(), NoMemory>
    ensures { OnOk result (text.new.items ≡ text.old.items ++ around words.now (config_text_of names.now config.now) more.now) }
{
    push_words(text, words)?;
    push_config_of(text, names, config)?;
    push_words(text, more)
}

fn push_lost_row(
    text: &mut Vec<u8>,
    next: &Names,
    number: usize,
    row: usize,
    image: &Config,
) -> Result<(), NoMemory>
    ensures { OnOk result (text.new.items ≡ text.old.items ++ lost_row_text next.now number row image.now) }
{
    push_between(text, next, "the image ", image, "")?;
    push_place(text, " of row ", row)?;
    push_count(text, " is no active configuration of problem ", number)
}

fn push_lost_choice(
    text: &mut Vec<u8>,
    before: &Names,
    next: &Names,
    number: usize,
    config: &Config,
    sets: &PortSets,
    image: &PortLabels,
) -> Result<(), NoMemory>
    ensures { OnOk result (text.new.items ≡ text.old.items ++ lost_choice_text before.now next.now number config.now sets.now image.now) }
{
    push_config_of(text, before, config)?;
    push_words(text, " can be chosen from ")?;
    push_sets(text, before, sets.sets())?;
    push_words(text, ", but its image ")?;
    push_choice(text, next, image.labels())?;
    push_count(text, " is no passive configuration of problem ", number)
}

fn push_bad_sets(
    text: &mut Vec<u8>,
    before: &Names,
    next: &Names,
    number: usize,
    config: &Config,
    sets: &PortSets,
    labels: &PortLabels,
) -> Result<(), NoMemory>
    ensures { OnOk result (text.new.items ≡ text.old.items ++ bad_sets_text before.now next.now number config.now sets.now labels.now) }
{
    push_choice(text, before, labels.labels())?;
    push_words(text, " can be chosen from ")?;
    push_sets(text, before, sets.sets())?;
    push_words(text, ", the sets of the active configuration ")?;
    push_config_of(text, next, config)?;
    push_count(
        text,
        ", but is no passive configuration of problem ",
        number,
    )
}

fn push_shut_sets(
    text: &mut Vec<u8>,
    before: &Names,
    next: &Names,
    number: usize,
    config: &Config,
    sets: &PortSets,
) -> Result<(), NoMemory>
    ensures { OnOk result (text.new.items ≡ text.old.items ++ shut_sets_text before.now next.now number config.now sets.now) }
{
    push_count(text, "no active configuration of problem ", number)?;
    push_words(text, " can be chosen from ")?;
    push_sets(text, before, sets.sets())?;
    push_words(text, ", the sets of the passive configuration ")?;
    push_config_of(text, next, config)
}

fn push_no_fit(
    text: &mut Vec<u8>,
    names: &Names,
    config: &Config,
    labels: &PortLabels,
) -> Result<(), NoMemory>
    ensures { OnOk result (text.new.items ≡ text.old.items ++ no_fit_text names.now config.now labels.now) }
{
    push_words(
        text,
        "not solvable without communication: from each active configuration labels can be chosen that are no passive one, as ",
    )?;
    push_choice(text, names, labels.labels())?;
    push_words(text, " from ")?;
    push_config_of(text, names, config)
}

// Words, and a number.
fn push_counted(text: &mut Vec<u8>, words: &str, number: usize) -> Result<(), NoMemory>
    ensures { OnOk result (text.new.items ≡ text.old.items ++ count_text words.now number) }
{
    push_count(text, words, number)
}

// Words, a configuration, words, and a number.
fn push_config_count(
    text: &mut Vec<u8>,
    names: &Names,
    words: &str,
    config: &Config,
    more: &str,
    number: usize,
) -> Result<(), NoMemory>
    ensures { OnOk result (text.new.items ≡ text.old.items ++ config_count names.now words.now config.now more.now number) }
{
    push_words(text, words)?;
    push_config_of(text, names, config)?;
    push_count(text, more, number)
}

fn push_twice(text: &mut Vec<u8>, names: &Names, label: u8) -> Result<(), NoMemory>
    ensures { OnOk result (text.new.items ≡ text.old.items ++ twice_text names.now label) }
{
    push_named(text, names, "", label, " has the image of a lower label")
}

fn push_lost_active(
    text: &mut Vec<u8>,
    names: &Names,
    config: &Config,
    number: usize,
) -> Result<(), NoMemory>
    ensures { OnOk result (text.new.items ≡ text.old.items ++ lost_active_text names.now config.now number) }
{
    let words = "the image of the active configuration ";
    let more = " is no active configuration of problem ";
    push_config_count(text, names, words, config, more, number)
}

fn push_lost_passive(
    text: &mut Vec<u8>,
    names: &Names,
    config: &Config,
    number: usize,
) -> Result<(), NoMemory>
    ensures { OnOk result (text.new.items ≡ text.old.items ++ lost_passive_text names.now config.now number) }
{
    let words = "the image of the passive configuration ";
    let more = " is no passive configuration of problem ";
    push_config_count(text, names, words, config, more, number)
}

// The first violation of a renaming.
fn push_renaming(
    text: &mut Vec<u8>,
    names: &Names,
    number: usize,
    verdict: &MapVerdict,
) -> Result<(), NoMemory>
    ensures { OnOk result (text.new.items ≡ text.old.items ++ renaming_text names.now number verdict.now) }
{
    match verdict {
        MapVerdict::Yes => Ok(()),
        MapVerdict::Degrees => {
            push_counted(text, "the degrees are not those of problem ", number)
        }
        MapVerdict::Empty(label) => push_named(text, names, "", *label, " has no image"),
        MapVerdict::Twice(label) => { push_twice(text, names, *label) }
        MapVerdict::Active(config) => { push_lost_active(text, names, config, number) }
        MapVerdict::Passive(config) => { push_lost_passive(text, names, config, number) }
        MapVerdict::Count(Side::Active) => {
            push_counted(
                text,
                "there are more active configurations in problem ",
                number,
            )
        }
        MapVerdict::Count(Side::Passive) => {
            push_counted(
                text,
                "there are more passive configurations in problem ",
                number,
            )
        }
    }
}

fn push_missing_row(text: &mut Vec<u8>, names: &Names, row: &Row) -> Result<(), NoMemory>
    ensures { OnOk result (text.new.items ≡ text.old.items ++ missing_row_text names.now row.now) }
{
    push_words(text, "maximal row that is missing: ")?;
    push_row_of(text, names, row)
}

fn push_missing_set(text: &mut Vec<u8>, names: &Names, set: LabelSet) -> Result<(), NoMemory>
    ensures { OnOk result (text.new.items ≡ text.old.items ++ missing_set_text names.now set) }
{
    push_words(text, "no entry has the set ")?;
    push_set_of(text, names, set)
}

fn push_foreign_set(text: &mut Vec<u8>, names: &Names, set: LabelSet) -> Result<(), NoMemory>
    ensures { OnOk result (text.new.items ≡ text.old.items ++ foreign_set_text names.now set) }
{
    push_around(text, names, "the set ", set, " of an entry is in no row")
}

// Words, and a label.
fn push_label_after(
    text: &mut Vec<u8>,
    names: &Names,
    words: &str,
    label: u8,
) -> Result<(), NoMemory>
    ensures { OnOk result (text.new.items ≡ text.old.items ++ label_after names.now words.now label) }
{
    push_words(text, words)?;
    push_label_of(text, names, label)
}

fn push_fit(text: &mut Vec<u8>, names: &Names, config: &Config) -> Result<(), NoMemory>
    ensures { OnOk result (text.new.items ≡ text.old.items ++ fit_text names.now config.now) }
{
    push_between(
        text,
        names,
        "solvable without communication: every node outputs ",
        config,
        ", whose labels are passive configurations in any choice",
    )
}

/// Appends what the witness shows, without a line feed, where these are the names of the labels of the problem before a step and of the
/// next one, and the numbers of these problems; at the end those of the last problem and of the one to which a fixed point goes back.
/// After an error the text may have grown.
pub fn push_witness(
    text: &mut Vec<u8>,
    before: &Names,
    next: &Names,
    number_before: usize,
    number_next: usize,
    witness: &Witness,
) -> Result<(), NoMemory>
    ensures { OnOk result (text.new.items ≡ text.old.items ++ witness_text (record { before = before.now; next = next.now; number_before = number_before; number_next = number_next }) witness.now) }
{
    match witness {
        Witness::Degrees(active, passive) => {
            push_degrees(text, number_before, number_next, *active, *passive)
        }
        Witness::BadRow(row, labels) => push_bad_row(text, before, *row, labels),
        Witness::Extends(row, place, label) => push_extends(text, before, *row, *place, *label),
        Witness::RowOrder(row) => push_order(text, "rows ", *row),
        Witness::ManyRows => push_words(text, "there are more than 1024 maximal rows"),
        Witness::MissingRow(row) => push_missing_row(text, before, row),
        Witness::SetOrder(place) => push_order(text, "entries ", *place),
        Witness::MissingSet(set) => push_missing_set(text, before, *set),
        Witness::ForeignSet(set) => push_foreign_set(text, before, *set),
        Witness::ImageCount => push_words(text, "there are not as many images as rows"),
        Witness::LostRow(row, image) => push_lost_row(text, next, number_next, *row, image),
        Witness::LostChoice(config, sets, labels) => {
            push_lost_choice(text, before, next, number_next, config, sets, labels)
        }
        Witness::LabelOrder(place) => push_order(text, "entries ", *place),
        Witness::MissingLabel(label) => push_label_after(
            text,
            next,
            "no entry has the label ",
            *label,
        ),
        Witness::EmptySet(label) => push_named(text, next, "the set of ", *label, " is empty"),
        Witness::BadSets(config, sets, labels) => {
            push_bad_sets(text, before, next, number_before, config, sets, labels)
        }
        Witness::ShutSets(config, sets) => {
            push_shut_sets(text, before, next, number_before, config, sets)
        }
        Witness::Fit(config) => push_fit(text, before, config),
        Witness::NoActive => push_words(
            text,
            "not solvable without communication: there is no active configuration",
        ),
        Witness::NoFit(config, labels) => push_no_fit(text, before, config, labels),
        Witness::PairOrder(place) => push_order(text, "pairs ", *place),
        Witness::MissingPair(label) => push_label_after(
            text,
            before,
            "no pair has the label ",
            *label,
        ),
        Witness::Renaming(verdict) => push_renaming(text, before, number_next, verdict),
    }
}
