ghost use Rattle.std.specs.Prelude.{◌≡◌, ◌≢◌, ◌≤◌, List, ℕ, length};
ghost use Rattle.fork_request.specs.Asked.{Ask, NoRequest, asked, asked_host};
ghost use Rattle.fork_request.specs.Spelling.{HostSpells, Spells};
ghost use Rattle.fork_request.specs.declared.host_request.HostRequest.{HostRequest};
ghost use Rattle.fork_request.specs.declared.host_request.HostRequest.TheVariants.{Bad};
ghost use Rattle.fork_request.specs.declared.request.TheConstants.{MAX_PAYLOAD};

/// A law, with no code to run: a payload is read as a request exactly if it is the one spelling of that
/// request, as `Spells` defines it for each, and is no longer than a payload may be.
pub fn a_request_has_one_spelling()
    ensures found { (payload : List ℕ) (ask : Ask) → length payload ≤ MAX_PAYLOAD → Spells ask payload → asked payload ≡ ask }
    ensures only { (payload : List ℕ) (ask : Ask) → asked payload ≡ ask → ask ≢ NoRequest → (length payload ≤ MAX_PAYLOAD) × Spells ask payload }
{}

/// A law, with no code to run: a payload is read as a request to the host itself exactly if it is the one
/// spelling of that request, as `HostSpells` defines it.
pub fn a_host_request_has_one_spelling()
    ensures found { (payload : List ℕ) (request : HostRequest) → HostSpells request payload → asked_host payload ≡ request }
    ensures only { (payload : List ℕ) (request : HostRequest) → asked_host payload ≡ request → request ≢ Bad → HostSpells request payload }
{}
