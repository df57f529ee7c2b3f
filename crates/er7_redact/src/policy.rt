// Rules, and what a policy does with a leaf that no rule names.
use super::action::Action;
use er7::path::Path;

// A path and what to do there. The path's name and the action's replacement stand in the policy's text.
#[derive(Clone, Copy)]
pub struct Rule {
    pub path: Path,
    pub action: Action,
}

// What a leaf gets that no rule names: it stays as it is, or gets an action.
#[derive(Clone, Copy)]
pub enum Posture {
    Accept,
    Reject(Action),
}
