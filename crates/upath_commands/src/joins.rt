//! Answers that are paths joined to a root.
ghost use Rattle.std.specs.Prelude.{◌≡◌, Some};
ghost use Rattle.path_within.specs.Below.{below_of};
ghost use Rattle.path_within.specs.Requests.{request_names};
ghost use Rattle.upath_commands.specs.Answers.{Finds, joined_of};

use crate::command::JoinRule;
use path_within::within::join_verbatim;
use path_within::{Request, Root, WithinError};
use std::alloc::{AllocError, Global};
use unix_path::{CowPath, Path};

// Returns the root's bytes, and then the names of a request.
fn join_request<'a>(
    alloc: Global,
    root: Path<'_>,
    request: Request<'_>,
) -> Result<Option<CowPath<'a>>, AllocError>
    ensures { Finds result
        (Some (below_of root.entry.bytes.now (request_names request.entry))) }
{
    let root = Root::verbatim(alloc, root)?;
    let answer = root.join(alloc, request)?;
    Ok(Some(CowPath::Owned(answer)))
}

// Returns the join to the root, unless the rule refuses the path.
pub(crate) fn join_answer<'a>(
    alloc: Global,
    rule: JoinRule,
    root: Path<'_>,
    path: Path<'_>,
) -> Result<Option<CowPath<'a>>, AllocError>
    ensures { Finds result (joined_of rule root.entry.bytes.now path.entry.bytes.now) }
{
    match rule {
        JoinRule::Trusted => Ok(Some(CowPath::Owned(root.join(alloc, path)?))),
        JoinRule::Beneath => match Request::beneath(path) {
            Ok(request) => join_request(alloc, root, request),
            Err(_) => Ok(None),
        },
        JoinRule::InRoot => match Request::in_root(path) {
            Ok(request) => join_request(alloc, root, request),
            Err(_) => Ok(None),
        },
        JoinRule::Verbatim => match join_verbatim(alloc, root, path) {
            Ok(answer) => Ok(Some(CowPath::Owned(answer))),
            Err(WithinError::Memory(error)) => Err(error),
            Err(_) => Ok(None),
        },
    }
}
