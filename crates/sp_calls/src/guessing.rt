// A tree of guesses, and the shares of its open groups: how likely its versions are to survive, which of them
// are picked, and which child comes next.
ghost use Rattle.std.specs.Prelude.{◌≡◌, true, All, IsSome, IsTrue};
ghost use Rattle.sp_base.specs.Numbers.{is_among};
ghost use Rattle.sp_group.specs.Family.{entry_at};
ghost use Rattle.sp_tree.specs.Grown.{kin, is_open, CanStand};

use crate::given::numbers_of;
use crate::standing::{push_children, push_path};
use crate::text::AnswerText;
use sp_base::Share;
use sp_chance::Chances;
use sp_group::Label;
use sp_pick::{next_label, pick, survival, survival_with};
use sp_tree::Tree;
use std::alloc::{AllocError, Global};
use std::marker::Model;

// How many versions may be live at a time.
const BOUND: u32 = 100;

// Versions under guesses, and the shares of their groups. Versions come, and none goes.
#[derive(Drop)]
struct Guesses {
    tree: Tree<()>,
    chances: Chances,
    // How many versions there are: the ids are at most these.
    added: u32,
}

impl Model for Guesses {
    ghost use Rattle.std.specs.Prelude.{ℕ, ◌≤◌, ◌+◌};

    ghost Value = { ℕ };

    ghost view = { λ g. g.added };

    ghost invariant = { λ g. g.tree.next ≤ g.added + 1 };
}

// Whether a version is live.
fn is_live(tree: &Tree<()>, id: u64) -> bool
    ensures { IsTrue result → IsSome (entry_at kin tree.now.entries id) }
{
    tree.get(id).is_some()
}

// Whether all of these versions are live.
fn are_live(tree: &Tree<()>, ids: &[u64]) -> bool
    ensures { IsTrue result → All (λ id. IsSome (entry_at kin tree.now.entries id)) ids.now }
{
    ids.iter().all(|id| is_live(tree, *id))
}

// Whether a version has this group, and it is open.
fn has_group(tree: &Tree<()>, id: u64, run: u32) -> bool
    ensures { result ≡ is_open tree.now id run }
{
    tree.groups(id).iter().any(|group| *group == run)
}

// Whether all of a label's groups are open.
fn are_open(tree: &Tree<()>, id: u64, label: &Label) -> bool
    ensures { IsTrue result → All (λ run. is_open tree.now id run ≡ true) label.now }
{
    label.runs().iter().all(|run| has_group(tree, id, *run))
}

// Whether a version may be added under a parent.
fn can_stand(tree: &Tree<()>, parent: u64, label: &Label) -> bool
    ensures { IsTrue result → CanStand tree.now (Some parent) label.now }
{
    is_live(tree, parent) && are_open(tree, parent, label) && tree.child(parent, label).is_none()
}

impl Guesses {
    // No version, and no share.
    fn new(alloc: Global) -> Result<Guesses, AllocError> {
        Ok(Guesses {
            tree: Tree::new(alloc, BOUND)?,
            chances: Chances::new(alloc),
            added: 0,
        })
    }

    // Adds the root, where no version is live, and answers its id.
    fn plant(&mut self, alloc: Global) -> Result<Option<u64>, AllocError> {
        if self.tree.root().is_some() || self.added >= BOUND {
            return Ok(None);
        }
        match self.tree.add(alloc, None, Label::empty(alloc), ()) {
            Ok(id) => {
                self.added += 1;
                Ok(Some(id))
            }
            Err(_) => Err(AllocError),
        }
    }

    // Adds a child under its label, where it may stand, and answers its id.
    fn add_child(
        &mut self,
        alloc: Global,
        parent: u64,
        label: Label,
    ) -> Result<Option<u64>, AllocError> {
        if self.added >= BOUND || !can_stand(&self.tree, parent, &label) {
            return Ok(None);
        }
        match self.tree.add(alloc, Some(parent), label, ()) {
            Ok(id) => {
                self.added += 1;
                Ok(Some(id))
            }
            Err(_) => Err(AllocError),
        }
    }

    // Opens a group of a live version, which has none of this run.
    fn open(&mut self, alloc: Global, owner: u64, run: u32) -> Result<(), AllocError> {
        if run == 0 || !is_live(&self.tree, owner) || has_group(&self.tree, owner, run) {
            return Ok(());
        }
        self.tree.open_group(alloc, owner, run)
    }

    // How likely a live version is to survive.
    fn survival(&self, id: u64) -> Option<u32> {
        if is_live(&self.tree, id) {
            Some(survival(&self.tree, id, &self.chances).get())
        } else {
            None
        }
    }

    // How likely a child of a live parent is to survive that has this label, or would have it.
    fn survival_with(&self, parent: u64, label: &Label) -> Option<u32> {
        if is_live(&self.tree, parent) {
            Some(survival_with(&self.tree, parent, label, &self.chances).get())
        } else {
            None
        }
    }

    // Which of these versions are picked; none where one of them isn't live.
    fn picked(&self, alloc: Global, ready: &[u64], k: u32) -> Result<Vec<u64>, AllocError> {
        if are_live(&self.tree, ready) {
            pick(alloc, &self.tree, &self.chances, ready, k)
        } else {
            Ok(Vec::new(alloc))
        }
    }

    // The label of the next child of a live parent.
    fn next_label(&self, alloc: Global, parent: u64) -> Result<Option<Label>, AllocError> {
        if is_live(&self.tree, parent) {
            next_label(alloc, &self.tree, parent, &self.chances)
        } else {
            Ok(None)
        }
    }
}

// Appends a line with a number, or with a dash.
fn push_found(word: &str, found: Option<u64>, out: &mut AnswerText) {
    out.text(word);
    match found {
        Some(number) => out.last(" ", number),
        None => out.text(" -\n"),
    }
}

// Adds a child under the label of these runs, and appends its id.
fn push_child(
    alloc: Global,
    guesses: &mut Guesses,
    word: &str,
    parent: u64,
    runs: &[u32],
    out: &mut AnswerText,
) -> Result<(), AllocError> {
    let id = match Label::new(alloc, runs)? {
        Some(label) => guesses.add_child(alloc, parent, label)?,
        None => None,
    };
    Ok(push_found(word, id, out))
}

// Appends how likely a child of the label of these runs is to survive.
fn push_survival_with(
    alloc: Global,
    guesses: &Guesses,
    word: &str,
    parent: u64,
    runs: &[u32],
    out: &mut AnswerText,
) -> Result<(), AllocError> {
    let survival = match Label::new(alloc, runs)? {
        Some(label) => guesses.survival_with(parent, &label),
        None => None,
    };
    Ok(push_found(word, survival.map(u64::from), out))
}

// Appends which of the versions are picked.
fn push_picked(
    alloc: Global,
    guesses: &Guesses,
    word: &str,
    k: u32,
    ready: &[u32],
    out: &mut AnswerText,
) -> Result<(), AllocError> {
    let ready = ready
        .iter()
        .map(|id| u64::from(*id))
        .collect::<Vec<u64>>(alloc)?;
    let picked = guesses.picked(alloc, &ready, k)?;
    Ok(out.made(format!(in alloc; "{word} {:?}\n", picked.as_slice())))
}

// Adds the next child of a parent, and appends its label.
fn push_next(
    alloc: Global,
    guesses: &mut Guesses,
    word: &str,
    parent: u64,
    out: &mut AnswerText,
) -> Result<(), AllocError> {
    out.text(word);
    let Some(label) = guesses.next_label(alloc, parent)? else {
        return Ok(out.text(" -\n"));
    };
    out.list(" ", label.runs());
    out.text("\n");
    guesses.add_child(alloc, parent, label)?;
    Ok(())
}

// Does what a word says of a version, and of numbers behind it.
fn step(
    alloc: Global,
    guesses: &mut Guesses,
    word: &str,
    what: &str,
    numbers: &[u32],
    out: &mut AnswerText,
) -> Result<(), AllocError> {
    let [first, rest @ ..] = numbers else {
        return Ok(());
    };
    let version = u64::from(*first);
    match what {
        "child" => push_child(alloc, guesses, word, version, rest, out),
        "with" => push_survival_with(alloc, guesses, word, version, rest, out),
        "pick" => push_picked(alloc, guesses, word, *first, rest, out),
        "survival" => {
            let survival = guesses.survival(version);
            Ok(push_found(word, survival.map(u64::from), out))
        }
        "next" => push_next(alloc, guesses, word, version, out),
        "path" => {
            out.text(word);
            push_path(alloc, &guesses.tree, version, out)
        }
        "children" => {
            out.text(word);
            push_children(alloc, &guesses.tree, version, out)
        }
        _ => set(alloc, guesses, what, version, rest),
    }
}

// Opens a group of a version, or sets the share of one.
fn set(
    alloc: Global,
    guesses: &mut Guesses,
    what: &str,
    version: u64,
    numbers: &[u32],
) -> Result<(), AllocError> {
    match (what, numbers) {
        ("open", [run]) => guesses.open(alloc, version, *run),
        ("share", [run, share]) => guesses.chances.set(version, *run, Share::new(*share)),
        _ => Ok(()),
    }
}

// Does what a word says, as `open:1,2`.
fn push_word(
    alloc: Global,
    guesses: &mut Guesses,
    word: &str,
    out: &mut AnswerText,
) -> Result<(), AllocError> {
    match word.split_once(':') {
        Some((what, text)) => {
            let numbers = numbers_of(alloc, text)?;
            step(alloc, guesses, word, what, &numbers, out)
        }
        None => Ok(push_found(word, guesses.plant(alloc)?, out)),
    }
}

// Does what the words say, one after the other.
fn push_words(
    alloc: Global,
    guesses: &mut Guesses,
    words: &[String],
    out: &mut AnswerText,
) -> Result<(), AllocError> {
    for word in words {
        push_word(alloc, guesses, word.as_str(), out)?;
    }
    Ok(())
}

/// Does what the words say, beginning with no version and no share, and appends what they ask for.
pub(crate) fn guess(
    alloc: Global,
    words: &[String],
    out: &mut AnswerText,
) -> Result<(), AllocError> {
    let mut guesses = Guesses::new(alloc)?;
    let pushed = push_words(alloc, &mut guesses, words, out);
    drop(guesses);
    pushed
}
