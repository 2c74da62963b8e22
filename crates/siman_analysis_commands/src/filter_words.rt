//! Filters, parsed from words `key=value`.

ghost use Rattle.std.specs.Prelude.{◌≡◌};
ghost use Rattle.siman_analysis_commands.specs.FilterWords.{outsider_of, request_of, fate_of, request_kind_of, other_kind_of, kind_of, name_of, own_filter, filter_by, filter_of};

use byte_files::{number_16, number_32, split_once};
use dis_records::{Kind, SiteApplication};
use exercise_review::{EntryName, Fate, Filter};
use siman_outside::ViewWord;
use siman_scripts::target_of;

/// The site and the application that a word `S:A` spells.
pub(crate) fn outsider_of(word: &[u8]) -> Option<SiteApplication>
    ensures { result ≡ outsider_of word.now }
{
    let (site, application) = split_once(word, b':')?;
    Some(SiteApplication {
        site: number_16(site)?,
        application: number_16(application)?,
    })
}

/// The filter of the request that a word `S:A/N` names.
fn request_of(word: &[u8]) -> Option<Filter>
    ensures { result ≡ request_of word.now }
{
    let (asker, request) = split_once(word, b'/')?;
    Some(Filter::Request(outsider_of(asker)?, number_32(request)?))
}

/// The fate with this name.
fn fate_of(word: &[u8]) -> Option<Fate>
    ensures { result ≡ fate_of word.now }
{
    if word == Fate::Done.name().as_bytes() {
        return Some(Fate::Done);
    }
    if word == Fate::Answered.name().as_bytes() {
        return Some(Fate::Answered);
    }
    if word == Fate::Refused.name().as_bytes() {
        return Some(Fate::Refused);
    }
    if word == Fate::Pending.name().as_bytes() {
        return Some(Fate::Pending);
    }
    if word == Fate::Unheard.name().as_bytes() {
        return Some(Fate::Unheard);
    }
    if word == Fate::Unanswered.name().as_bytes() {
        return Some(Fate::Unanswered);
    }
    if word == Fate::Lost.name().as_bytes() {
        return Some(Fate::Lost);
    }
    if word == Fate::Unknown.name().as_bytes() {
        return Some(Fate::Unknown);
    }
    if word == Fate::Nobody.name().as_bytes() {
        return Some(Fate::Nobody);
    }
    None
}

/// The kind of request with this name.
fn request_kind_of(word: &[u8]) -> Option<Kind>
    ensures { result ≡ request_kind_of word.now }
{
    if word == Kind::CreateEntity.name().as_bytes() {
        return Some(Kind::CreateEntity);
    }
    if word == Kind::RemoveEntity.name().as_bytes() {
        return Some(Kind::RemoveEntity);
    }
    if word == Kind::StartResume.name().as_bytes() {
        return Some(Kind::StartResume);
    }
    if word == Kind::StopFreeze.name().as_bytes() {
        return Some(Kind::StopFreeze);
    }
    if word == Kind::ActionRequest.name().as_bytes() {
        return Some(Kind::ActionRequest);
    }
    if word == Kind::DataQuery.name().as_bytes() {
        return Some(Kind::DataQuery);
    }
    if word == Kind::SetData.name().as_bytes() {
        return Some(Kind::SetData);
    }
    None
}

/// The kind of PDU with this name, among those that are no requests.
fn other_kind_of(word: &[u8]) -> Option<Kind>
    ensures { result ≡ other_kind_of word.now }
{
    if word == Kind::Acknowledge.name().as_bytes() {
        return Some(Kind::Acknowledge);
    }
    if word == Kind::ActionResponse.name().as_bytes() {
        return Some(Kind::ActionResponse);
    }
    if word == Kind::DataPdu.name().as_bytes() {
        return Some(Kind::DataPdu);
    }
    if word == Kind::EventReport.name().as_bytes() {
        return Some(Kind::EventReport);
    }
    if word == Kind::Comment.name().as_bytes() {
        return Some(Kind::Comment);
    }
    None
}

/// The kind of PDU with this name.
fn kind_of(word: &[u8]) -> Option<Kind>
    ensures { result ≡ kind_of word.now }
{
    match request_kind_of(word) {
        Some(kind) => Some(kind),
        None => other_kind_of(word),
    }
}

/// The name of entries that a word is: that of a kind of PDU, `told` or `other`.
fn name_of(word: &[u8]) -> Option<EntryName>
    ensures { result ≡ name_of word.now }
{
    if word == b"told".as_slice() {
        return Some(EntryName::Told);
    }
    if word == b"other".as_slice() {
        return Some(EntryName::Other);
    }
    Some(EntryName::Kind(kind_of(word)?))
}

/// The filter for a key that not each view has, and its value.
fn own_filter(view: ViewWord, key: &[u8], word: &[u8]) -> Option<Filter>
    ensures { result ≡ own_filter view key.now word.now }
{
    match view {
        ViewWord::Review if key == b"fate".as_slice() => Some(Filter::Fate(fate_of(word)?)),
        ViewWord::Log | ViewWord::Count if key == b"kind".as_slice() => {
            Some(Filter::Kind(name_of(word)?))
        }
        _ => None,
    }
}

/// The filter of a view for a key and its value.
fn filter_by(view: ViewWord, key: &[u8], word: &[u8]) -> Option<Filter>
    ensures { result ≡ filter_by view key.now word.now }
{
    if key == b"station".as_slice() {
        return Some(Filter::Station(outsider_of(word)?));
    }
    if key == b"entity".as_slice() {
        return Some(Filter::Entity(target_of(word)?));
    }
    if key == b"request".as_slice() {
        return request_of(word);
    }
    own_filter(view, key, word)
}

/// The filter that a word is for a view: `station=S:A`, `entity=S:A:E` or `request=S:A/N`, for
/// `review` also `fate=WORD`, and for `log` and `count` `kind=NAME`. Numbers are decimal, each in
/// the range of its field, and may have leading zeros.
pub fn filter_of(view: ViewWord, word: &[u8]) -> Option<Filter>
    ensures { result ≡ filter_of view word.now }
{
    let (key, word) = split_once(word, b'=')?;
    filter_by(view, key, word)
}
