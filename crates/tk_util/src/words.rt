ghost use Rattle.std.specs.Prelude.{◌≡◌, ◌≢◌, [], ◌∷◌, ◌≤◌, ◌<◌, ◌^◌, length, MatchOption, IfSome, Some, None};
ghost use Rattle.tk_util.specs.Words.{command_of, words_of, operands, key_words, set_words, restore_words, is_option, is_hash_name, is_key, is_value};
ghost use Rattle.tk_util.specs.Asked.{command_asked, key_said, set_said, restore_said, all_of, IsWithin};

/// A file and a key in it.
#[derive(Clone, Copy, Debug, PartialEq, Eq)]
pub(crate) struct KeyOperands<'a> {
    pub file: &'a str,
    pub key: &'a [u8],
}

/// The operands of `set`.
#[derive(Clone, Copy, Debug, PartialEq, Eq)]
pub(crate) struct SetOperands<'a> {
    pub file: &'a str,
    pub key: &'a [u8],
    pub value: &'a [u8],
}

/// The file that is restored, and the one that is written.
#[derive(Clone, Copy, Debug, PartialEq, Eq)]
pub(crate) struct RestoreOperands<'a> {
    pub from: &'a str,
    pub to: &'a str,
}

/// A command on one file, with its operands.
#[derive(Clone, Copy, Debug, PartialEq, Eq)]
pub(crate) enum FileCommand<'a> {
    Get(KeyOperands<'a>),
    Set(SetOperands<'a>),
    Remove(KeyOperands<'a>),
}

/// A command with its operands.
#[derive(Clone, Copy, Debug, PartialEq, Eq)]
pub(crate) enum Asked<'a> {
    OnFile(FileCommand<'a>),
    Restore(RestoreOperands<'a>),
}

impl<'a> FileCommand<'a> {
    ghost use Rattle.std.specs.Prelude.{◌≡◌};
    ghost use Rattle.tk_util.specs.Asked.{file_said};
    ghost use Rattle.tk_util.specs.Ran.{file_of, creates};

    /// The name of the command's file.
    pub(crate) fn file(self) -> &'a str
        ensures { result.now ≡ file_of (file_said self.entry) }
    {
        match self {
            FileCommand::Get(get) => get.file,
            FileCommand::Set(set) => set.file,
            FileCommand::Remove(remove) => remove.file,
        }
    }

    /// Whether the command makes an absent file.
    pub(crate) fn creates(self) -> bool
        ensures { result ≡ creates (file_said self.entry) }
    {
        matches!(self, FileCommand::Set(_))
    }
}

/// The words before `--` and those behind it.
#[derive(Clone, Copy)]
struct Operands<'a> {
    before: &'a [String],
    behind: &'a [String],
}

fn is_option(word: &[u8]) -> bool
    ensures { result ≡ is_option word.now }
{
    word.len() > 1 && word[0] == b'-'
}

fn is_hash_name(name: &[u8]) -> bool
    ensures { result ≡ is_hash_name name.now }
{
    name.len() >= 4 && &name[name.len() - 4..] == b".tkh".as_slice()
}

fn is_key(key: &[u8]) -> bool
    ensures { result ≡ is_key key.now }
{
    key.len() <= 65_535
}

fn is_value(value: &[u8]) -> bool
    ensures { result ≡ is_value value.now }
{
    value.len() <= 16_777_215
}

/// The operands among words, where no option is.
fn operands_of(words: &[String]) -> Option<Operands<'_>>
    ensures { MatchOption result (operands (words_of words.now) ≡ None) (λ o.
        operands (words_of words.now) ≡ Some (all_of o)) }
{
    for i in 0..words.len() {
        let word = words[i].as_str();
        if word == "--" {
            return Some(Operands {
                before: &words[..i],
                behind: &words[i + 1..],
            });
        }
        if is_option(word.as_bytes()) {
            return None;
        }
    }
    Some(Operands {
        before: words,
        behind: &[],
    })
}

/// Two operands, of any bytes.
#[tactic(auto, using(crate::proofs::WordSteps::length_all))]
fn two_of(operands: Operands<'_>) -> Option<(&str, &str)>
    ensures { MatchOption result (length (all_of operands.entry) ≢ 2) (λ two.
        all_of operands.entry ≡ two.0.now ∷ two.1.now ∷ []) }
{
    match (operands.before, operands.behind) {
        ([one, two], []) | ([one], [two]) | ([], [one, two]) => Some((one.as_str(), two.as_str())),
        _ => None,
    }
}

/// The operands of `get` and of `remove`.
#[tactic(auto, using(crate::proofs::WordSteps::two_alone))]
fn key_operands(operands: Operands<'_>) -> Option<KeyOperands<'_>>
    ensures fits { IfSome result (λ k. length k.key.now < 2 ^ 16) }
    ensures read { MatchOption result (key_words (all_of operands.entry) ≡ None) (λ k.
        key_words (all_of operands.entry) ≡ Some (key_said k)) }
{
    let (file, word) = two_of(operands)?;
    let key = word.as_bytes();
    if is_hash_name(file.as_bytes()) && is_key(key) {
        Some(KeyOperands { file, key })
    } else {
        None
    }
}

/// Three operands, of any bytes.
#[tactic(auto, using(crate::proofs::WordSteps::length_all))]
fn three_of(operands: Operands<'_>) -> Option<SetOperands<'_>>
    ensures { MatchOption result (length (all_of operands.entry) ≢ 3) (λ s.
        all_of operands.entry ≡ s.file.now ∷ s.key.now ∷ s.value.now ∷ []) }
{
    match (operands.before, operands.behind) {
        ([file, key, value], [])
        | ([file, key], [value])
        | ([file], [key, value])
        | ([], [file, key, value]) => Some(SetOperands {
            file: file.as_str(),
            key: key.as_str().as_bytes(),
            value: value.as_str().as_bytes(),
        }),
        _ => None,
    }
}

/// The operands of `set`.
#[tactic(auto, using(crate::proofs::WordSteps::three_alone))]
fn set_operands(operands: Operands<'_>) -> Option<SetOperands<'_>>
    ensures fits { IfSome result (λ s. (length s.key.now < 2 ^ 16)
        × (length s.value.now ≤ 16777215)) }
    ensures read { MatchOption result (set_words (all_of operands.entry) ≡ None) (λ s.
        set_words (all_of operands.entry) ≡ Some (set_said s)) }
{
    let asked = three_of(operands)?;
    if is_hash_name(asked.file.as_bytes()) && is_key(asked.key) && is_value(asked.value) {
        Some(asked)
    } else {
        None
    }
}

/// The operands of `restore`.
#[tactic(auto, using(crate::proofs::WordSteps::names_alone))]
fn restore_operands(operands: Operands<'_>) -> Option<RestoreOperands<'_>>
    ensures differ { IfSome result (λ r. r.from.now ≢ r.to.now) }
    ensures read { MatchOption result (restore_words (all_of operands.entry) ≡ None) (λ r.
        restore_words (all_of operands.entry) ≡ Some (restore_said r)) }
{
    let (from, to) = two_of(operands)?;
    if is_hash_name(from.as_bytes()) && is_hash_name(to.as_bytes()) && from != to {
        Some(RestoreOperands { from, to })
    } else {
        None
    }
}

/// Reads the words of a command.
pub(crate) fn read_words(words: &[String]) -> Option<Asked<'_>>
    ensures fits { IfSome result IsWithin }
    ensures read { MatchOption result (command_of (words_of words.now) ≡ None) (λ a.
        command_of (words_of words.now) ≡ Some (command_asked a)) }
{
    let (command, words) = words.split_first()?;
    let operands = operands_of(words)?;
    match command.as_str() {
        "get" => Some(Asked::OnFile(FileCommand::Get(key_operands(operands)?))),
        "set" => Some(Asked::OnFile(FileCommand::Set(set_operands(operands)?))),
        "remove" => Some(Asked::OnFile(FileCommand::Remove(key_operands(operands)?))),
        "restore" => Some(Asked::Restore(restore_operands(operands)?)),
        _ => None,
    }
}
