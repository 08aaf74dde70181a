//! What the profile says of a function by its name: of two entries of one name in a list the last counts.

ghost use Rattle.std.specs.Prelude.{◌≡◌, not, ◌||◌, is_some};
ghost use Rattle.std.specs.Option.{option_copied};
ghost use Rattle.c_means.specs.Rules as rules;

use c_means::{FillFunction, IdentityFunction, LogFunction, Profile};

/// The log function of a name.
pub fn log_function<'a>(profile: &'a Profile, name: &[u8]) -> Option<&'a LogFunction>
    ensures { option_copied result ≡ rules.log_of profile.now name.now }
{
    let mut found = None;
    for function in profile.log.as_slice() {
        if function.name.get().as_slice() == name {
            found = Some(function);
        }
    }
    found
}

/// The identity function of a name.
pub fn identity_function<'a>(profile: &'a Profile, name: &[u8]) -> Option<&'a IdentityFunction>
    ensures { option_copied result ≡ rules.identity_of profile.now name.now }
{
    let mut found = None;
    for function in profile.identity.as_slice() {
        if function.name.get().as_slice() == name {
            found = Some(function);
        }
    }
    found
}

/// The function of a name that fills a buffer.
pub fn filling_function<'a>(profile: &'a Profile, name: &[u8]) -> Option<&'a FillFunction>
    ensures { option_copied result ≡ rules.fill_of profile.now name.now }
{
    let mut found = None;
    for function in profile.fills.as_slice() {
        if function.name.get().as_slice() == name {
            found = Some(function);
        }
    }
    found
}

/// Which argument an identity function of a name hands on.
pub fn identity_index(profile: &Profile, name: &[u8]) -> Option<u32>
    ensures { result ≡ rules.identity_index profile.now name.now }
{
    match identity_function(profile, name) {
        None => None,
        Some(function) => Some(function.index),
    }
}

/// Whether a body of a function of this name runs where it is called: those of log and identity functions don't.
pub fn runs_body(profile: &Profile, name: &[u8]) -> bool
    ensures { result ≡ not (is_some (rules.log_of profile.now name.now) || is_some (rules.identity_index profile.now name.now)) }
{
    log_function(profile, name).is_none() && identity_index(profile, name).is_none()
}
