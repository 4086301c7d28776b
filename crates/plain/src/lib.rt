// Plain signing, as a definition: what a signing on shares must come to.
#![tactic(auto)]

ghost use Rattle.plain.specs.Laws.{CandidateBits, SigningAccounts, SigningsAlike};

/// What holds of every signing: its nonce words are its attempts' words, its attempts are those that its outcome tells of,
/// and the share count shows in nothing but word counts and the end of the masks.
pub fn laws_hold()
    ensures bits { CandidateBits }
    ensures accounts { SigningAccounts }
    ensures alike { SigningsAlike }
{}
